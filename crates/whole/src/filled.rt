// How many rows are filled of the tables of long names and of letters.
#[derive(Clone, Copy)]
pub struct Filled {
    pub longs: usize,
    pub letters: usize,
}
