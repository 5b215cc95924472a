// The check of a tree image.
ghost use Rattle.std.specs.Prelude.{◌≡◌};
ghost use Rattle.image.specs.Checks.{Checks, Fills};
ghost use Rattle.image.specs.Image.{ImageStands};
ghost use Rattle.image.specs.Tables.{zero as zero_tables};
ghost use Rattle.image.specs.Trees.{TreeStands};

use crate::tables::{Sizes, Tables};
use format::cursor::Cursor;
use records::whole::read_tree;
use refusal::Refusal;
use text::part::front;
use whole::derive::derive_names;
use whole::modules::check_modules;

pub const IMAGE_BYTES: usize = 32768;

// Fills clear tables with the tree of the image, or tells the first check that fails.
fn fill(image: &[u8], tables: &mut Tables) -> Result<Sizes, Refusal>
    requires { tables.old ≡ zero_tables }
    ensures { Fills image.now result tables.new }
{
    if image.len() > IMAGE_BYTES {
        return Err(Refusal::ImageTooLong);
    }
    let mut cursor = Cursor { image, at: 0 };
    let counts = read_tree(
        &mut cursor,
        &mut tables.modules,
        &mut tables.names,
        &mut tables.recipes,
        &mut tables.patterns,
    )?;
    let at = cursor.at;
    if at < image.len() {
        return Err(Refusal::BytesBehind { at });
    }
    let recipes = usize::from(counts.recipes);
    let filled = derive_names(
        image,
        &tables.recipes,
        recipes,
        &mut tables.longs,
        &mut tables.letters,
    )?;
    let modules = usize::from(counts.modules);
    let names = usize::from(counts.names);
    check_modules(front(&tables.names, names), modules)?;
    let sizes = Sizes {
        modules,
        names,
        recipes,
        patterns: usize::from(counts.patterns),
        longs: filled.longs,
        letters: filled.letters,
    };
    tables.sizes = sizes;
    Ok(sizes)
}

// Fills the tables with the tree of the image, or tells the first check that fails and leaves all rows zero.
pub fn check(image: &[u8], tables: &mut Tables) -> Result<Sizes, Refusal>
    ensures { Checks image.now result tables.new }
{
    *tables = Tables::new();
    let filled = fill(image, tables);
    if filled.is_err() {
        *tables = Tables::new();
    }
    filled
}

// An image says one tree or gets one refusal, and never both.
pub fn image_stands() -> u8
    ensures { ImageStands }
{
    0
}

// In the tree of a lawful image what is found exists, and exactly one path leads to each module.
pub fn trees_stand() -> u8
    ensures { TreeStands }
{
    0
}
