ghost use Rattle.std.specs.Prelude.{◌≤◌, length};
ghost use Rattle.table.specs.Order.{Ascending};
ghost use Rattle.tree.specs.Keys.{name_key, long_key, letter_key};
ghost use Rattle.tree_register.specs.Derived.{Few, LongsRight, LongsTold, LettersRight, LettersTold};

use tree::rows::{LetterRow, LongRow, ModuleRow, NameRow, RecipeRow};

// A register over the filled rows of an accepted image; long and letter rows are derived from the recipe rows.
#[derive(Clone, Copy)]
pub struct TableRegister<'a> {
    pub image: &'a [u8],
    pub modules: &'a [ModuleRow],
    pub names: &'a [NameRow],
    pub recipes: &'a [RecipeRow],
    pub longs: &'a [LongRow],
    pub letters: &'a [LetterRow],
    ghost modules_fit: { length modules.now ≤ 64 },
    ghost names_fit: { length names.now ≤ 512 },
    ghost few: { Few recipes.now },
    ghost names_ascend: { Ascending (name_key image.now) names.now },
    ghost longs_ascend: { Ascending (long_key image.now) longs.now },
    ghost letters_ascend: { Ascending (letter_key image.now) letters.now },
    ghost longs_right: { LongsRight image.now recipes.now longs.now },
    ghost longs_told: { LongsTold image.now recipes.now longs.now },
    ghost letters_right: { LettersRight image.now recipes.now letters.now },
    ghost letters_told: { LettersTold image.now recipes.now letters.now },
}

pub mod answers;
pub mod empty;
mod names;
mod signatures;
