// What an accepted admit answers: the serial of the line's first order, and how many orders it has.
#[derive(Clone, Copy)]
pub struct Admitted {
    pub serial: u32,
    pub orders: usize,
}
