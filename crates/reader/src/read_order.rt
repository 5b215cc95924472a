use crate::source::ValueRow;
use reading::role::Role;

// An order that was read: its recipe, its first word, how many words its path has and how many it has, the roles of its words behind the path, and its values, their words counted in the order.
#[derive(Clone, Copy)]
pub struct ReadOrder<'a> {
    pub recipe: u16,
    pub first: usize,
    pub path: usize,
    pub words: usize,
    pub roles: &'a [Role],
    pub values: &'a [ValueRow],
}
