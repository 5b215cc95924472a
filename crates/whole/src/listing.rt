// Rows that list the names of recipes' parameters.
ghost use Rattle.std.specs.Prelude.{◌≡◌, ℕ, List, Option, refl};
ghost use Rattle.std.specs.Option.{option_map};
ghost use Rattle.tree.specs.Tree.{Parameter};
ghost use Rattle.tree.specs.Rows.{parameter_at};
ghost use Rattle.whole.specs.Entries.{Entry, entry, key_of, long_entry, letter_entry, long_name, letter_name};

use table::keyed::Ranked;
use tree::rows::{LetterRow, LongRow, ParameterRow};

// A row that lists a name of a recipe's parameter, and is found by the recipe and the name; texts lie in an image.
pub trait Listing: Ranked + Copy {
    ghost said: { List ℕ → Self → Entry };

    ghost name: { Parameter → Option (List ℕ) };

    // The row of the parameter at a place of a recipe, if it has such a name.
    fn list(recipe: u16, place: u8, parameter: &ParameterRow) -> Option<Self>
        ensures { (image : List ℕ) → option_map (said image) result ≡ option_map (entry recipe place) (name (parameter_at image parameter.now)) };

    ghost found_by: { (image : List ℕ) (row : Self) → Self.keyed image row ≡ key_of (said image row) };
}

impl Listing for LongRow {
    ghost said = { long_entry };

    ghost name = { long_name };

    fn list(recipe: u16, place: u8, parameter: &ParameterRow) -> Option<LongRow> {
        let text = parameter.long?;
        Some(LongRow {
            recipe,
            text,
            place,
        })
    }

    ghost found_by = { λ image row. refl };
}

impl Listing for LetterRow {
    ghost said = { letter_entry };

    ghost name = { letter_name };

    fn list(recipe: u16, place: u8, parameter: &ParameterRow) -> Option<LetterRow> {
        let letter = parameter.letter?;
        Some(LetterRow {
            recipe,
            letter,
            place,
        })
    }

    ghost found_by = { λ image row. refl };
}
