use register::kind::Kind;

// What a name stands for in a module: its kind, and the module, recipe or label found.
// Kept: a number beside its kind, since the kinds that lead to one thing share an arm, and an enum of seven cases with a number each is no plainer.
#[derive(Clone, Copy)]
pub struct Found {
    pub kind: Kind,
    pub number: u16,
}
