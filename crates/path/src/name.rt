// A name of a path: its text, whether pieces of the same word follow it, and its word, counted in the order.
#[derive(Clone, Copy)]
pub struct Name<'a> {
    pub text: &'a [u8],
    pub followed: bool,
    pub word: usize,
}
