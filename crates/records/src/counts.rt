// How many rows of each kind a tree has.
#[derive(Clone, Copy)]
pub struct Counts {
    pub modules: u16,
    pub names: u16,
    pub recipes: u16,
    pub patterns: u16,
}
