// Name rows.
ghost use Rattle.std.specs.Prelude.{◌≡◌, ◌≤◌, None, Decides};
ghost use Rattle.std.specs.Ordering.{is_lt};
ghost use Rattle.refusal.specs.declared.Refusal.TheVariants.{OutOfRange};
ghost use Rattle.format.specs.Format.{number as number_format, checked, rows as rows_format};
ghost use Rattle.format.specs.Fields.{bit};
ghost use Rattle.format.specs.Reads.{Reads, itself, optionally};
ghost use Rattle.register.specs.Kinds.{kind_number};
ghost use Rattle.table.specs.Order.{ranked};
ghost use Rattle.tree.specs.Keys.{name_key};
ghost use Rattle.tree.specs.Rows.{name_at};
ghost use Rattle.records.specs.Records.{Kind as KindFits, Leads, Above, name_alone, name_record};
ghost use Rattle.records.specs.TreeRows.{rows_at, Filled};

use crate::counts::Counts;
use crate::numbered::read_as;
use crate::rows::read_table;
use format::cursor::Cursor;
use format::maps::has;
use refusal::Refusal;
use register::kind::Kind;
use table::keyed::Keyed;
use tree::rows::NameRow;

// A kind that fits the map's number bit.
fn read_kind(cursor: &mut Cursor, map: u8) -> Result<Kind, Refusal>
    ensures { Reads (checked OutOfRange (KindFits (bit 0 map)) (number_format 1)) (λ _ kind. kind_number kind) cursor.old result cursor.new }
{
    cursor.read_in_range(
        |c| read_as::<Kind>(c),
        |kind| kind.labelled() != has(map, 0),
    )
}

// Whether a name's number leads to a module or a recipe that there is.
fn is_lead(counts: Counts, own: u16, kind: Kind, lead: u16) -> bool
    ensures { Decides result (Leads counts.modules counts.recipes own (kind_number kind) lead) }
{
    match kind {
        Kind::Module => own < lead && lead < counts.modules,
        Kind::ModuleAlias => lead < counts.modules,
        _ => lead < counts.recipes,
    }
}

fn read_lead(cursor: &mut Cursor, counts: Counts, own: u16, kind: Kind) -> Result<u16, Refusal>
    ensures { Reads (checked OutOfRange (Leads counts.modules counts.recipes own (kind_number kind)) (number_format 2)) itself cursor.old result cursor.new }
{
    cursor.read_in_range(|c| c.read_number(), |lead| is_lead(counts, own, kind, lead))
}

// Whether a row is above the row before it.
fn is_above(image: &[u8], last: Option<NameRow>, row: NameRow) -> bool
    ensures { Decides result (Above (optionally name_at image.now last) (name_at image.now row)) }
{
    last.is_none_or(
        |before| -> bool
            ensures { result ≡ is_lt (ranked (name_key image.entry.now before) (name_key image.entry.now row)) }
        { before.key(image).cmp(&row.key(image)).is_lt() },
    )
}

fn read_name_alone(cursor: &mut Cursor, counts: Counts) -> Result<NameRow, Refusal>
    ensures { Reads (name_alone counts.modules counts.recipes) name_at cursor.old result cursor.new }
{
    let map = cursor.read_below::<u8>(2)?;
    let module = cursor.read_below(counts.modules)?;
    let kind = read_kind(cursor, map)?;
    let text = cursor.read_name()?;
    let number = cursor.read_if(map, 0, |c| read_lead(c, counts, module, kind))?;
    Ok(NameRow {
        module,
        kind,
        text,
        number,
    })
}

// A name row, above the row before it.
fn read_name(cursor: &mut Cursor, counts: Counts, last: Option<NameRow>) -> Result<NameRow, Refusal>
    ensures { Reads (name_record counts.modules counts.recipes (optionally name_at cursor.old.image.now last)) name_at cursor.old result cursor.new }
{
    let image = cursor.image;
    cursor.read_checked(
        |c| read_name_alone(c, counts),
        |row| is_above(image, last, row),
        |at| Refusal::NameNotAbove { at },
    )
}

// The name rows, each above the one before.
pub(crate) fn read_names(
    cursor: &mut Cursor,
    counts: Counts,
    rows: &mut [NameRow; 512],
) -> Result<(), Refusal>
    requires { counts.names ≤ 512 }
    ensures reads { Reads (rows_format (name_record counts.modules counts.recipes) None counts.names) (λ image _. rows_at name_at rows.new counts.names image) cursor.old result cursor.new }
    ensures filled { Filled 512 counts.names rows.old rows.new }
{
    read_table(cursor, rows, counts.names as usize, |c, last| {
        read_name(c, counts, last)
    })
}
