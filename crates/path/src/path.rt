// The path of an order: the recipe that it leads to, how many words it takes, and whether the recipe is a module's default.
#[derive(Clone, Copy)]
pub struct Path {
    pub recipe: u16,
    pub words: usize,
    pub default: bool,
}
