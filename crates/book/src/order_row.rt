// An order that is kept: its recipe, its first word and how many words it has, and from which value row to which its values stand.
#[derive(Clone, Copy, Default)]
pub struct OrderRow {
    pub recipe: u16,
    pub first: usize,
    pub words: usize,
    pub from: usize,
    pub to: usize,
}
