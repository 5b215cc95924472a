// The words of refusals: an order's are counted from its first word, and its place in the line is added last.
ghost use Rattle.std.specs.Prelude.{◌≡◌, ◌+◌, ◌-◌, ◌^◌, ◌<◌, min};
ghost use Rattle.refusal.specs.Told.{told_of};
ghost use Rattle.refusal.specs.Shift.{on_word, shifted_by, ShiftsStand};

use crate::Refusal;

impl Refusal {
    // A refusal of an order, told at this word; others stay as they are.
    fn at_word(self, word: usize) -> Refusal
        ensures { result ≡ on_word (λ _. word) self }
    {
        match self {
            Refusal::UnknownRecipe { .. } => Refusal::UnknownRecipe { word },
            Refusal::UnknownSubmodule { .. } => Refusal::UnknownSubmodule { word },
            Refusal::ExpectedSubmoduleButFoundRecipe { .. } =>
                Refusal::ExpectedSubmoduleButFoundRecipe { word },
            Refusal::RecipeDisabled { label, .. } => Refusal::RecipeDisabled { word, label },
            Refusal::AliasDisabled { label, .. } => Refusal::AliasDisabled { word, label },
            Refusal::ModuleAbsent { label, .. } => Refusal::ModuleAbsent { word, label },
            Refusal::NoRecipes { .. } => Refusal::NoRecipes { word },
            Refusal::NoDefaultRecipe { .. } => Refusal::NoDefaultRecipe { word },
            Refusal::DefaultRecipeRequiresArguments { required, .. } =>
                Refusal::DefaultRecipeRequiresArguments { word, required },
            Refusal::InvalidOption { .. } => Refusal::InvalidOption { word },
            Refusal::UnknownOption { letter, .. } => Refusal::UnknownOption { word, letter },
            Refusal::FlagWithValue { letter, .. } => Refusal::FlagWithValue { word, letter },
            Refusal::NonFinalOptionWithValue { letter, .. } => Refusal::NonFinalOptionWithValue {
                word,
                letter,
            },
            Refusal::OptionMissingValue { letter, .. } => Refusal::OptionMissingValue {
                word,
                letter,
            },
            Refusal::DuplicateOption { letter, .. } => Refusal::DuplicateOption { word, letter },
            Refusal::MissingOption { parameter, .. } => Refusal::MissingOption { word, parameter },
            Refusal::PositionalArgumentCountMismatch { found, min, .. } =>
                Refusal::PositionalArgumentCountMismatch { word, found, min },
            Refusal::ArgumentTooFewValues {
                parameter,
                found,
                ..
            } => Refusal::ArgumentTooFewValues {
                word,
                parameter,
                found,
            },
            Refusal::ArgumentTooManyValues {
                parameter,
                found,
                ..
            } => Refusal::ArgumentTooManyValues {
                word,
                parameter,
                found,
            },
            Refusal::ArgumentPatternMismatch { parameter, .. } => Refusal::ArgumentPatternMismatch {
                word,
                parameter,
            },
            Refusal::ImageTooLong
            | Refusal::FieldCutOff { .. }
            | Refusal::OutOfRange { .. }
            | Refusal::ForbiddenText { .. }
            | Refusal::NameNotAbove { .. }
            | Refusal::ModuleNotNamedOnce { .. }
            | Refusal::BytesBehind { .. }
            | Refusal::SharedName { .. }
            | Refusal::LineTooLong
            | Refusal::LineNotClosed
            | Refusal::TooManyWords
            | Refusal::WordNotUtf8 { .. }
            | Refusal::NoSuchParameter
            | Refusal::LineKept
            | Refusal::SerialsEnd
            | Refusal::OrderOut
            | Refusal::NoneWaiting
            | Refusal::WrongSlip
            | Refusal::NotKept => self,
        }
    }

    // The refusal with its word, counted from an order's first, as counted from the line's first. The largest count stands for any beyond it.
    pub fn shifted(self, first: usize) -> Refusal
        ensures value { result ≡ on_word (λ word. min (first + word) (2 ^ 64 - 1)) self }
        ensures exact { first + (told_of self).word < 2 ^ 64 → result ≡ shifted_by first self }
    {
        self.at_word(first.saturating_add(self.told().word))
    }
}

// Shifts add up.
pub fn shifts_stand() -> u8
    ensures { ShiftsStand }
{
    0
}
