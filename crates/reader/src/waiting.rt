// Whom the next word is for: the parameter at a place, which the switch at this letter of this word calls.
#[derive(Clone, Copy)]
pub struct Waiting {
    pub place: usize,
    pub word: usize,
    pub letter: usize,
}
