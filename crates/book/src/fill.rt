// How far the tables of a book are filled.
#[derive(Clone, Copy, Default)]
pub struct Fill {
    pub bytes: usize,
    pub words: usize,
    pub orders: usize,
    pub values: usize,
}
