// What an accepted issue answers: the order's serial, recipe, first word and words, and how often it was issued before, counted to 255.
#[derive(Clone, Copy)]
pub struct Issued {
    pub serial: u32,
    pub recipe: u16,
    pub first: usize,
    pub words: usize,
    pub earlier: u8,
}
