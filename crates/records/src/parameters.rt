// Parameters of a recipe.
ghost use Rattle.std.specs.Prelude.{Decides};
ghost use Rattle.refusal.specs.declared.Refusal.TheVariants.{OutOfRange};
ghost use Rattle.format.specs.Format.{number as number_format, checked, only_if};
ghost use Rattle.format.specs.Fields.{bit, within};
ghost use Rattle.format.specs.Reads.{Reads, itself};
ghost use Rattle.register.specs.ParameterNumber.{parameter_number};
ghost use Rattle.tree.specs.Rows.{parameter_at};
ghost use Rattle.records.specs.Records.{Scalar, parameter_record};

use crate::numbered::read_as;
use format::cursor::Cursor;
use format::maps::has;
use refusal::Refusal;
use register::parameter::ParameterKind;
use tree::rows::ParameterRow;

// Whether a number is a Unicode scalar value.
fn is_scalar(code: u32) -> bool
    ensures { Decides result (Scalar code) }
{
    char::from_u32(code).is_some()
}

fn read_letter(cursor: &mut Cursor) -> Result<u32, Refusal>
    ensures { Reads (checked OutOfRange Scalar (number_format 4)) itself cursor.old result cursor.new }
{
    cursor.read_in_range(|c| c.read_number(), is_scalar)
}

// The kind whose number stands here if its bit does; without it, Singular.
fn read_kind(cursor: &mut Cursor, map: u16) -> Result<ParameterKind, Refusal>
    ensures { Reads (only_if (bit 4 map) (within 1 2 1)) (λ _ kind. parameter_number kind) cursor.old result cursor.new }
{
    let kind = cursor.read_if(map, 4, |c| read_as(c))?;
    Ok(kind.unwrap_or(ParameterKind::Singular))
}

pub(crate) fn read_parameter(cursor: &mut Cursor, patterns: u16) -> Result<ParameterRow, Refusal>
    ensures { Reads (parameter_record patterns) parameter_at cursor.old result cursor.new }
{
    let map = cursor.read_below::<u16>(1024)?;
    let default = cursor.read_if(map, 0, |c| c.read_plain(0))?;
    let kind = read_kind(cursor, map)?;
    let long = cursor.read_if(map, 5, |c| c.read_plain(1))?;
    let letter = cursor.read_if(map, 6, read_letter)?;
    let min = cursor.read_if(map, 7, |c| c.read_number())?;
    let max = cursor.read_if(map, 8, |c| c.read_number())?;
    let pattern = cursor.read_if(map, 9, |c| c.read_below(patterns))?;
    Ok(ParameterRow {
        default,
        flag: has(map, 1),
        multiple: has(map, 2),
        value: has(map, 3),
        kind,
        long,
        letter,
        min,
        max,
        pattern,
    })
}
