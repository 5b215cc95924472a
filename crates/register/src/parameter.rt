// How many plain words a parameter takes: one, one or more, or any number.
#[derive(Clone, Copy, PartialEq, Eq)]
pub enum ParameterKind {
    Singular,
    Plus,
    Star,
}

// A parameter of a recipe without its texts.
// Kept: `has_default` and `has_long` stand alone, since the texts that they speak of are what is left out here.
#[derive(Clone, Copy, PartialEq, Eq)]
pub struct Parameter {
    pub has_default: bool,
    pub flag: bool,
    pub multiple: bool,
    pub value: bool,
    pub kind: ParameterKind,
    pub has_long: bool,
    pub letter: Option<u32>,
    pub min: Option<u32>,
    pub max: Option<u32>,
    pub pattern: Option<u8>,
}
