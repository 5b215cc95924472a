// The whole tree.
ghost use Rattle.std.specs.Prelude.{take, IfOk};
ghost use Rattle.std.specs.List.{AllByRecursion};
ghost use Rattle.format.specs.Reads.{Reads};
ghost use Rattle.records.specs.Records.{tree as tree_format};
ghost use Rattle.records.specs.TreeRows.{tree_at, Filled, RecipeTidy, PatternTidy};

use crate::counts::Counts;
use crate::head::read_head;
use crate::modules::read_modules;
use crate::names::read_names;
use crate::patterns::read_patterns;
use crate::recipes::read_recipes;
use format::cursor::Cursor;
use refusal::Refusal;
use tree::rows::{ModuleRow, NameRow, PatternRow, RecipeRow};

// Reads the tree that stands at the cursor into the rows, and leaves the rows behind its counts as they are.
pub fn read_tree(
    cursor: &mut Cursor,
    modules: &mut [ModuleRow; 64],
    names: &mut [NameRow; 512],
    recipes: &mut [RecipeRow; 64],
    patterns: &mut [PatternRow; 256],
) -> Result<Counts, Refusal>
    ensures reads { Reads tree_format (tree_at modules.new names.new recipes.new patterns.new) cursor.old result cursor.new }
    ensures modules { IfOk result (λ n. Filled 64 n.modules modules.old modules.new) }
    ensures names { IfOk result (λ n. Filled 512 n.names names.old names.new) }
    ensures recipes { IfOk result (λ n. Filled 64 n.recipes recipes.old recipes.new) }
    ensures patterns { IfOk result (λ n. Filled 256 n.patterns patterns.old patterns.new) }
    ensures parameters { IfOk result (λ n. AllByRecursion RecipeTidy (take n.recipes recipes.new)) }
    ensures texts { IfOk result (λ n. AllByRecursion PatternTidy (take n.patterns patterns.new)) }
{
    let counts = read_head(cursor)?;
    read_modules(cursor, counts.modules as usize, counts.recipes, modules)?;
    read_names(cursor, counts, names)?;
    read_recipes(cursor, counts.recipes as usize, counts.patterns, recipes)?;
    read_patterns(cursor, counts.patterns as usize, patterns)?;
    Ok(counts)
}
