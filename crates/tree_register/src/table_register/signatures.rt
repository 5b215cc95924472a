// Look-ups among the recipe, long and letter rows.
ghost use Rattle.std.specs.Prelude.{◌≡◌, ℕ, List, map, length};
ghost use Rattle.std.specs.Option.{option_map};
ghost use Rattle.std.specs.List.{slice_get};
ghost use Rattle.register.specs.Parameters.{long_place, letter_place, without_texts};
ghost use Rattle.tree.specs.Rows.{parameter_at};
ghost use Rattle.tree_register.specs.Derived.{parameters_in};
ghost use Rattle.tree_register.specs.Signatures.{parameter_of};

use crate::table_register::TableRegister;
use register::parameter::Parameter;
use table::search::Table;
use text::part::front;
use tree::keys::{LetterKey, LongKey};
use tree::rows::ParameterRow;

// A parameter's row without its texts.
pub(crate) fn without_texts(row: &ParameterRow) -> Parameter
    ensures { (image : List ℕ) → result ≡ without_texts (parameter_of (parameter_at image row.now)) }
{
    Parameter {
        has_default: row.default.is_some(),
        flag: row.flag,
        multiple: row.multiple,
        value: row.value,
        kind: row.kind,
        has_long: row.long.is_some(),
        letter: row.letter,
        min: row.min,
        max: row.max,
        pattern: row.pattern,
    }
}

impl<'a> TableRegister<'a> {
    // The recipe's parameters, and none where there is no such recipe.
    fn parameters(&self, recipe: u16) -> &'a [ParameterRow]
        ensures { map parameter_of (map (parameter_at self.now.image.now) result.now) ≡ parameters_in self.now.image.now self.now.recipes.now recipe }
    {
        self.recipes
            .get(recipe as usize)
            .map(|row| front(&row.parameters, row.count))
            .unwrap_or_default()
    }

    // How many parameters the recipe has.
    pub(crate) fn parameter_count(&self, recipe: u16) -> usize
        ensures { result ≡ length (parameters_in self.now.image.now self.now.recipes.now recipe) }
    {
        self.parameters(recipe).len()
    }

    // The row of the recipe's parameter at the place.
    pub(crate) fn parameter_row(&self, recipe: u16, place: usize) -> Option<&'a ParameterRow>
        ensures { option_map (λ x. parameter_of (parameter_at self.now.image.now x.now)) result ≡ slice_get (parameters_in self.now.image.now self.now.recipes.now recipe) place }
    {
        self.parameters(recipe).get(place)
    }

    // The place of the recipe's parameter with this long name.
    pub(crate) fn long_place(&self, recipe: u16, name: &[u8]) -> Option<usize>
        ensures { result ≡ long_place (parameters_in self.now.image.now self.now.recipes.now recipe) name.now }
    {
        let longs = Table {
            image: self.image,
            rows: self.longs,
        };
        let row = longs.find(LongKey { recipe, text: name });
        row.map(|row| row.place as usize)
    }

    // The place of the recipe's parameter with this letter.
    // Kept: beside `long_place`, since a function over both kinds of rows wants a trait for their place with an impl for each, which is longer than both bodies.
    pub(crate) fn letter_place(&self, recipe: u16, letter: u32) -> Option<usize>
        ensures { result ≡ letter_place (parameters_in self.now.image.now self.now.recipes.now recipe) letter }
    {
        let letters = Table {
            image: self.image,
            rows: self.letters,
        };
        let row = letters.find(LetterKey { recipe, letter });
        row.map(|row| row.place as usize)
    }
}
