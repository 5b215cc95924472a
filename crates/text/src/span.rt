// A text as a place in some bytes: a word of a line, a text of an image.
#[derive(Clone, Copy)]
pub struct Span {
    pub start: usize,
    pub len: usize,
}

pub mod texts;
