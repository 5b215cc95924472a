// The rows of a tree. Texts are places in the image's bytes.
use register::kind::Kind;
use register::parameter::ParameterKind;
use text::span::Span;

// A module: its default recipe.
#[derive(Clone, Copy)]
pub struct ModuleRow {
    pub default: Option<u16>,
}

// A name in a module: its kind, and where it leads.
#[derive(Clone, Copy)]
pub struct NameRow {
    pub module: u16,
    pub kind: Kind,
    pub text: Span,
    pub number: Option<u16>,
}

#[derive(Clone, Copy)]
pub struct ParameterRow {
    pub default: Option<Span>,
    pub flag: bool,
    pub multiple: bool,
    pub value: bool,
    pub kind: ParameterKind,
    pub long: Option<Span>,
    pub letter: Option<u32>,
    pub min: Option<u32>,
    pub max: Option<u32>,
    pub pattern: Option<u8>,
}

// A row without a parameter.
pub const NO_PARAMETER: ParameterRow = ParameterRow {
    default: None,
    flag: false,
    multiple: false,
    value: false,
    kind: ParameterKind::Singular,
    long: None,
    letter: None,
    min: None,
    max: None,
    pattern: None,
};

// Kept: a row is fixed memory, and all zero once an image is refused; so a count stands beside the array, here and in a pattern; and 0 says that the field is absent, as the zero row has none.
#[derive(Clone, Copy)]
pub struct RecipeRow {
    pub count: usize,
    pub parameters: [ParameterRow; 16],
}

// The low and the high of a gauge, in centimetres.
#[derive(Clone, Copy)]
pub struct Gauge {
    pub low: u32,
    pub high: u32,
}

// A pattern: its listed texts (count 0: the field is absent), and its gauge.
#[derive(Clone, Copy)]
pub struct PatternRow {
    pub count: usize,
    pub texts: [Span; 16],
    pub gauge: Option<Gauge>,
}

// A long name of a recipe's parameter, and the parameter's place.
#[derive(Clone, Copy)]
pub struct LongRow {
    pub recipe: u16,
    pub text: Span,
    pub place: u8,
}

// A letter of a recipe's parameter, and the parameter's place.
// Kept: two structs, since one over both kinds of names keeps an impl of `Keyed` and of `Listing` for each, and saves this struct alone.
#[derive(Clone, Copy)]
pub struct LetterRow {
    pub recipe: u16,
    pub letter: u32,
    pub place: u8,
}
