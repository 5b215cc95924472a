// Tables that are filled with rows.
ghost use Rattle.std.specs.Prelude.{◌≡◌, ◌≤◌, take, IfOk};
ghost use Rattle.format.specs.Calls.{Fills};
ghost use Rattle.format.specs.Fields.{bit};
ghost use Rattle.records.specs.TreeRows.{Filled};
ghost use Rattle.records.specs.Tables.{CountsRows, CountsRowsIf};

use format::cursor::Cursor;
use format::maps::has;
use format::numbers::Number;
use refusal::Refusal;

// Reads so many rows, each with the row before it at hand.
pub(crate) fn read_table<
    V: Copy,
    R: Fn(&mut Cursor, Option<V>) -> Result<V, Refusal>,
    const N: usize,
>(cursor: &mut Cursor, rows: &mut [V; N], count: usize, read: R) -> Result<(), Refusal>
    requires few { count ≤ N }
    requires calls { R.IsAlwaysCallable read }
    ensures fills { Fills (λ last c r d. (p : _) × (q : _) × R.post read p last r q × (p.now ≡ c) × (q.now ≡ d)) (take count rows.new) cursor.old result cursor.new }
    ensures filled { Filled N count rows.old rows.new }
{
    cursor.read_rows(&mut rows[..count], read)
}

// A count of at most 16, and that many rows.
fn read_counted<V: Copy, R: Fn(&mut Cursor) -> Result<V, Refusal>>(
    cursor: &mut Cursor,
    rows: &mut [V; 16],
    read: R,
) -> Result<usize, Refusal>
    requires { R.IsAlwaysCallable read }
    ensures counts { CountsRows (λ c r d. (p : _) × (q : _) × R.post read p r q × (p.now ≡ c) × (q.now ≡ d)) 1 16 rows.new cursor.old result cursor.new }
    ensures filled { IfOk result (λ n. Filled 16 n rows.old rows.new) }
{
    let count = cursor.read_within::<u8>(1, 16)?;
    read_table(cursor, rows, count as usize, |c, _| read(c))?;
    Ok(count as usize)
}

// The same if the map's lowest bit is set, and else no row.
// Kept: `read_if` says nothing of what a closure borrows that it leaves uncalled, and without the bit the rows must be as they were.
pub(crate) fn read_counted_if<N: Number, V: Copy, R: Fn(&mut Cursor) -> Result<V, Refusal>>(
    cursor: &mut Cursor,
    map: N,
    rows: &mut [V; 16],
    read: R,
) -> Result<usize, Refusal>
    requires { R.IsAlwaysCallable read }
    ensures counts { CountsRowsIf (λ c r d. (p : _) × (q : _) × R.post read p r q × (p.now ≡ c) × (q.now ≡ d)) 1 16 (bit 0 (N.value map)) rows.new cursor.old result cursor.new }
    ensures filled { IfOk result (λ n. Filled 16 n rows.old rows.new) }
{
    if has(map, 0) {
        read_counted(cursor, rows, read)
    } else {
        Ok(0)
    }
}
