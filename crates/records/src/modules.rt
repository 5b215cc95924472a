// Module records.
ghost use Rattle.std.specs.Prelude.{◌≤◌, None};
ghost use Rattle.format.specs.Format.{rows as rows_format};
ghost use Rattle.format.specs.Reads.{Reads};
ghost use Rattle.tree.specs.Rows.{module_at};
ghost use Rattle.records.specs.Records.{module_record};
ghost use Rattle.records.specs.TreeRows.{rows_at, Filled};

use crate::rows::read_table;
use format::cursor::Cursor;
use refusal::Refusal;
use tree::rows::ModuleRow;

pub(crate) fn read_module(cursor: &mut Cursor, recipes: u16) -> Result<ModuleRow, Refusal>
    ensures { Reads (module_record recipes) module_at cursor.old result cursor.new }
{
    let map = cursor.read_below::<u8>(2)?;
    let default = cursor.read_if(map, 0, |c| c.read_below(recipes))?;
    Ok(ModuleRow { default })
}

pub(crate) fn read_modules(
    cursor: &mut Cursor,
    count: usize,
    recipes: u16,
    rows: &mut [ModuleRow; 64],
) -> Result<(), Refusal>
    requires { count ≤ 64 }
    ensures reads { Reads (rows_format (λ _. module_record recipes) None count) (λ image _. rows_at module_at rows.new count image) cursor.old result cursor.new }
    ensures filled { Filled 64 count rows.old rows.new }
{
    read_table(cursor, rows, count, |c, _| read_module(c, recipes))
}
