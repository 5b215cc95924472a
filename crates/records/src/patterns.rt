// Patterns: listed texts, and a gauge.
ghost use Rattle.std.specs.Prelude.{◌≤◌, take, IfOk, None, OnOk};
ghost use Rattle.std.specs.List.{AllByRecursion};
ghost use Rattle.refusal.specs.declared.Refusal.TheVariants.{OutOfRange};
ghost use Rattle.format.specs.Format.{number as number_format, checked, rows as rows_format};
ghost use Rattle.format.specs.Reads.{Reads, itself};
ghost use Rattle.tree.specs.Rows.{pattern_at};
ghost use Rattle.records.specs.Records.{range as range_format, pattern_record};
ghost use Rattle.records.specs.TreeRows.{rows_at, gauge_at, Filled, PatternTidy};

use crate::rows::{read_counted_if, read_table};
use format::cursor::Cursor;
use refusal::Refusal;
use text::span::Span;
use tree::rows::{Gauge, PatternRow};

// A high that is not below the low.
fn read_high(cursor: &mut Cursor, low: u32) -> Result<u32, Refusal>
    ensures { Reads (checked OutOfRange (λ high. low ≤ high) (number_format 4)) itself cursor.old result cursor.new }
{
    cursor.read_in_range(|c| c.read_number(), |high| low <= high)
}

fn read_gauge(cursor: &mut Cursor) -> Result<Gauge, Refusal>
    ensures { Reads range_format gauge_at cursor.old result cursor.new }
{
    let low = cursor.read_number()?;
    let high = read_high(cursor, low)?;
    Ok(Gauge { low, high })
}

pub(crate) fn read_pattern(cursor: &mut Cursor) -> Result<PatternRow, Refusal>
    ensures reads { Reads pattern_record pattern_at cursor.old result cursor.new }
    ensures tidy { IfOk result PatternTidy }
{
    let map = cursor.read_below::<u8>(4)?;
    let mut texts = [Span { start: 0, len: 0 }; 16];
    let count = read_counted_if(cursor, map, &mut texts, |c| c.read_plain(1))?;
    let gauge = cursor.read_if(map, 1, read_gauge)?;
    Ok(PatternRow {
        count,
        texts,
        gauge,
    })
}

pub(crate) fn read_patterns(
    cursor: &mut Cursor,
    count: usize,
    rows: &mut [PatternRow; 256],
) -> Result<(), Refusal>
    requires { count ≤ 256 }
    ensures reads { Reads (rows_format (λ _. pattern_record) None count) (λ image _. rows_at pattern_at rows.new count image) cursor.old result cursor.new }
    ensures filled { Filled 256 count rows.old rows.new }
    ensures tidy { OnOk result (AllByRecursion PatternTidy (take count rows.new)) }
{
    read_table(cursor, rows, count, |c, _| read_pattern(c))
}
