use crate::called::Called;

// The parameter that waits for the next word, and the switch that calls it.
#[derive(Clone, Copy)]
pub struct Awaited {
    pub called: Called,
    pub word: usize,
    pub letter: usize,
}
