// Recipes.
ghost use Rattle.std.specs.Prelude.{◌≤◌, take, IfOk, None, OnOk};
ghost use Rattle.std.specs.List.{AllByRecursion};
ghost use Rattle.format.specs.Format.{rows as rows_format};
ghost use Rattle.format.specs.Reads.{Reads};
ghost use Rattle.tree.specs.Rows.{recipe_at};
ghost use Rattle.records.specs.Records.{recipe_record};
ghost use Rattle.records.specs.TreeRows.{rows_at, Filled, RecipeTidy};

use crate::parameters::read_parameter;
use crate::rows::{read_counted_if, read_table};
use format::cursor::Cursor;
use refusal::Refusal;
use tree::rows::{NO_PARAMETER, RecipeRow};

pub(crate) fn read_recipe(cursor: &mut Cursor, patterns: u16) -> Result<RecipeRow, Refusal>
    ensures reads { Reads (recipe_record patterns) recipe_at cursor.old result cursor.new }
    ensures tidy { IfOk result RecipeTidy }
{
    let map = cursor.read_below::<u8>(2)?;
    let mut parameters = [NO_PARAMETER; 16];
    let count = read_counted_if(cursor, map, &mut parameters, |c| {
        read_parameter(c, patterns)
    })?;
    Ok(RecipeRow { count, parameters })
}

pub(crate) fn read_recipes(
    cursor: &mut Cursor,
    count: usize,
    patterns: u16,
    rows: &mut [RecipeRow; 64],
) -> Result<(), Refusal>
    requires { count ≤ 64 }
    ensures reads { Reads (rows_format (λ _. recipe_record patterns) None count) (λ image _. rows_at recipe_at rows.new count image) cursor.old result cursor.new }
    ensures filled { Filled 64 count rows.old rows.new }
    ensures tidy { OnOk result (AllByRecursion RecipeTidy (take count rows.new)) }
{
    read_table(cursor, rows, count, |c, _| read_recipe(c, patterns))
}
