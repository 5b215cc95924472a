// What the register over a tree's rows answers.
ghost use Rattle.std.specs.Prelude.{map};
ghost use Rattle.tree.specs.Rows.{module_at, name_at, recipe_at};
ghost use Rattle.tree_register.specs.Laws.{rows_few, rows_apart};
ghost use Rattle.tree_register.specs.Names.{names_of};
ghost use Rattle.tree_register.specs.Signatures.{signatures_of};

use crate::table_register::TableRegister;
use crate::table_register::signatures::without_texts;
use register::kind::Kind;
use register::parameter::Parameter;
use register::register::Register;
use text::span::texts::text_at;

impl<'a> Register for TableRegister<'a> {
    ghost names = { λ s. names_of (map (module_at s.image.now) s.modules.now) (map (name_at s.image.now) s.names.now) };

    ghost signatures = { λ s. signatures_of (map (recipe_at s.image.now) s.recipes.now) };

    ghost few = { λ s r. rows_few s.image.now s.recipes.now r s.few };

    ghost apart = { λ s r. rows_apart s.image.now s.recipes.now r s.longs.now s.letters.now s.longs_ascend s.longs_told s.letters_ascend s.letters_told };

    fn root(&self) -> u16 {
        0
    }

    fn modules(&self) -> u16 {
        self.modules.len() as u16
    }

    fn find(&self, module: u16, kind: Kind, name: &[u8]) -> Option<u16> {
        let place = self.name_place(module, kind, name)?;
        if kind.labelled() {
            Some(place as u16)
        } else {
            self.names[place].number
        }
    }

    fn default(&self, module: u16) -> Option<u16> {
        self.module_default(module)
    }

    fn has_recipes(&self, module: u16) -> bool {
        self.has_kind(module, Kind::Recipe)
    }

    fn count(&self, recipe: u16) -> usize {
        self.parameter_count(recipe)
    }

    fn parameter(&self, recipe: u16, place: usize) -> Option<Parameter> {
        self.parameter_row(recipe, place).map(without_texts)
    }

    fn long(&self, recipe: u16, name: &[u8]) -> Option<usize> {
        self.long_place(recipe, name)
    }

    fn letter(&self, recipe: u16, code: u32) -> Option<usize> {
        self.letter_place(recipe, code)
    }

    // Kept: this and `long_text` differ in the field alone; a function that takes the field as a closure is longer than both.
    fn default_text(&self, recipe: u16, place: usize) -> Option<&[u8]> {
        let row = self.parameter_row(recipe, place)?;
        row.default.map(|span| text_at(self.image, span))
    }

    fn long_text(&self, recipe: u16, place: usize) -> Option<&[u8]> {
        let row = self.parameter_row(recipe, place)?;
        row.long.map(|span| text_at(self.image, span))
    }
}
