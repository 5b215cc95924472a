// Refusals: the closed list of what a call may turn down, each with the numbers that the screen shows.
#![tactic(auto)]

ghost use Rattle.std.specs.Prelude.{◌≡◌, Some};
ghost use Rattle.refusal.specs.Told.{told_of, told_text, refusal_text};

use std::fmt;

pub mod shift;

// Why a call was turned down. Places, words, modules, recipes, parameters and letters are counted from 0.
#[derive(Clone, Copy, PartialEq, Eq)]
pub enum Refusal {
    // the tree image
    ImageTooLong,
    FieldCutOff {
        at: usize,
    },
    OutOfRange {
        at: usize,
    },
    ForbiddenText {
        at: usize,
    },
    NameNotAbove {
        at: usize,
    },
    ModuleNotNamedOnce {
        module: usize,
    },
    BytesBehind {
        at: usize,
    },
    SharedName {
        recipe: usize,
    },
    // the limits of a line
    LineTooLong,
    LineNotClosed,
    TooManyWords,
    WordNotUtf8 {
        word: usize,
    },
    // the path of an order
    UnknownRecipe {
        word: usize,
    },
    UnknownSubmodule {
        word: usize,
    },
    ExpectedSubmoduleButFoundRecipe {
        word: usize,
    },
    RecipeDisabled {
        word: usize,
        label: usize,
    },
    AliasDisabled {
        word: usize,
        label: usize,
    },
    ModuleAbsent {
        word: usize,
        label: usize,
    },
    NoRecipes {
        word: usize,
    },
    NoDefaultRecipe {
        word: usize,
    },
    DefaultRecipeRequiresArguments {
        word: usize,
        required: usize,
    },
    // the switches of a word
    InvalidOption {
        word: usize,
    },
    UnknownOption {
        word: usize,
        letter: usize,
    },
    FlagWithValue {
        word: usize,
        letter: usize,
    },
    NonFinalOptionWithValue {
        word: usize,
        letter: usize,
    },
    OptionMissingValue {
        word: usize,
        letter: usize,
    },
    DuplicateOption {
        word: usize,
        letter: usize,
    },
    // the arguments of an order
    MissingOption {
        word: usize,
        parameter: usize,
    },
    PositionalArgumentCountMismatch {
        word: usize,
        found: usize,
        min: usize,
    },
    ArgumentTooFewValues {
        word: usize,
        parameter: usize,
        found: usize,
    },
    ArgumentTooManyValues {
        word: usize,
        parameter: usize,
        found: usize,
    },
    ArgumentPatternMismatch {
        word: usize,
        parameter: usize,
    },
    // a readback's parameter
    NoSuchParameter,
    // the state of a console
    LineKept,
    SerialsEnd,
    OrderOut,
    NoneWaiting,
    WrongSlip,
    NotKept,
}

// What the screen shows of a refusal.
// Kept: numbers, since a screen shows nothing else; what is passed on in the code is the case itself.
#[derive(Clone, Copy, PartialEq, Eq)]
pub struct Told {
    pub number: u8,
    pub layer: u8,
    pub word: usize,
    pub first: usize,
    pub second: usize,
}

fn make(number: u8, layer: u8, word: usize, first: usize, second: usize) -> Told
    ensures { result ≡ record { number = number; layer = layer; word = word; first = first; second = second } }
{
    Told {
        number,
        layer,
        word,
        first,
        second,
    }
}

impl Refusal {
    // Number, layer, word and two figures; what a case does not name is 0.
    pub fn told(self) -> Told
        ensures { result ≡ told_of self }
    {
        match self {
            Refusal::ImageTooLong => make(1, 0, 0, 32768, 0),
            Refusal::FieldCutOff { at } => make(2, 0, 0, at, 0),
            Refusal::OutOfRange { at } => make(3, 0, 0, at, 0),
            Refusal::ForbiddenText { at } => make(4, 0, 0, at, 0),
            Refusal::NameNotAbove { at } => make(5, 0, 0, at, 0),
            Refusal::ModuleNotNamedOnce { module } => make(6, 0, 0, module, 0),
            Refusal::BytesBehind { at } => make(7, 0, 0, at, 0),
            Refusal::SharedName { recipe } => make(8, 0, 0, recipe, 0),
            Refusal::LineTooLong => make(10, 1, 0, 0, 0),
            Refusal::LineNotClosed => make(11, 1, 0, 0, 0),
            Refusal::TooManyWords => make(12, 1, 0, 0, 0),
            Refusal::WordNotUtf8 { word } => make(13, 1, word, 0, 0),
            Refusal::UnknownRecipe { word } => make(14, 2, word, 0, 0),
            Refusal::UnknownSubmodule { word } => make(15, 2, word, 0, 0),
            Refusal::ExpectedSubmoduleButFoundRecipe { word } => make(16, 2, word, 0, 0),
            Refusal::RecipeDisabled { word, label } => make(17, 2, word, label, 0),
            Refusal::AliasDisabled { word, label } => make(18, 2, word, label, 0),
            Refusal::ModuleAbsent { word, label } => make(19, 2, word, label, 0),
            Refusal::NoRecipes { word } => make(20, 2, word, 0, 0),
            Refusal::NoDefaultRecipe { word } => make(21, 2, word, 0, 0),
            Refusal::DefaultRecipeRequiresArguments { word, required } => make(
                22, 2, word, required, 0,
            ),
            Refusal::InvalidOption { word } => make(23, 3, word, 0, 0),
            Refusal::UnknownOption { word, letter } => make(24, 3, word, letter, 0),
            Refusal::FlagWithValue { word, letter } => make(25, 3, word, letter, 0),
            Refusal::NonFinalOptionWithValue { word, letter } => make(26, 3, word, letter, 0),
            Refusal::OptionMissingValue { word, letter } => make(27, 3, word, letter, 0),
            Refusal::DuplicateOption { word, letter } => make(28, 3, word, letter, 0),
            Refusal::MissingOption { word, parameter } => make(29, 4, word, parameter, 0),
            Refusal::PositionalArgumentCountMismatch { word, found, min } => make(
                30, 4, word, found, min,
            ),
            Refusal::ArgumentTooFewValues {
                word,
                parameter,
                found,
            } => make(31, 4, word, parameter, found),
            Refusal::ArgumentTooManyValues {
                word,
                parameter,
                found,
            } => make(32, 4, word, parameter, found),
            Refusal::ArgumentPatternMismatch { word, parameter } => make(33, 4, word, parameter, 0),
            Refusal::NoSuchParameter => make(34, 4, 0, 0, 0),
            Refusal::LineKept => make(40, 5, 0, 0, 0),
            Refusal::SerialsEnd => make(41, 5, 0, 0, 0),
            Refusal::OrderOut => make(42, 5, 0, 0, 0),
            Refusal::NoneWaiting => make(43, 5, 0, 0, 0),
            Refusal::WrongSlip => make(44, 5, 0, 0, 0),
            Refusal::NotKept => make(45, 5, 0, 0, 0),
        }
    }
}

// Five numbers with a space between them.
impl fmt::Display for Told {
    ghost output = { λ t. Some (told_text t) };

    fn fmt<W: fmt::Write>(&self, f: &mut fmt::Formatter<W>) -> fmt::Result {
        write!(
            f,
            "{} {} {} {} {}",
            self.number, self.layer, self.word, self.first, self.second
        )
    }
}

// `refused`, and the five numbers.
impl fmt::Display for Refusal {
    ghost output = { λ refusal. Some (refusal_text refusal) };

    fn fmt<W: fmt::Write>(&self, f: &mut fmt::Formatter<W>) -> fmt::Result {
        let told = self.told();
        write!(f, "refused {told}")
    }
}
