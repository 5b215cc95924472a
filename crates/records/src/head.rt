// The head of an image.
ghost use Rattle.std.specs.Prelude.{◌≤◌, IfOk};
ghost use Rattle.format.specs.Reads.{Reads};
ghost use Rattle.records.specs.Records.{head as head_format};
ghost use Rattle.records.specs.TreeRows.{head_at};

use crate::counts::Counts;
use format::cursor::Cursor;
use refusal::Refusal;

pub(crate) fn read_head(cursor: &mut Cursor) -> Result<Counts, Refusal>
    ensures reads { Reads head_format head_at cursor.old result cursor.new }
    ensures few { IfOk result (λ n. (n.modules ≤ 64) × (n.names ≤ 512) × (n.recipes ≤ 64) × (n.patterns ≤ 256)) }
{
    let modules = cursor.read_within(1, 64)?;
    let names = cursor.read_within(0, 512)?;
    let recipes = cursor.read_within(0, 64)?;
    let patterns = cursor.read_within(0, 256)?;
    Ok(Counts {
        modules,
        names,
        recipes,
        patterns,
    })
}
