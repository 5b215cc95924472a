// The text of readings, for any writer.
#![tactic(auto)]

use book::order_row::OrderRow;
use book::tables::Book;
use reader::counts::source_text;
use reader::source::ValueRow;
use reading::role::Role;
use script::answer::WordText;
use std::fmt;

// A recipe has no more parameters.
const PARAMETERS: usize = 16;

// `reading`, the number of orders, and each order.
#[derive(Clone, Copy)]
pub struct ReadingText<'a> {
    pub book: &'a Book,
}

// `roles`, and a letter for each word.
#[derive(Clone, Copy)]
pub struct RolesText<'a> {
    pub book: &'a Book,
}

// The texts that go to a parameter, if there are any: its place, and behind a colon each text, with commas between them.
fn write_group<W: fmt::Write>(
    f: &mut fmt::Formatter<W>,
    bytes: &[u8],
    values: &[ValueRow],
    parameter: usize,
) -> fmt::Result {
    let group = values.iter().filter(|value| value.parameter == parameter);
    for (i, value) in group.enumerate() {
        if i == 0 {
            write!(f, " {parameter}:")?;
        } else {
            f.write_str(",")?;
        }
        let word = source_text(bytes, value.source);
        write!(f, "{}", WordText { word })?;
    }
    Ok(())
}

// An order: its recipe, first word and words, and each group that is not empty.
fn write_order<W: fmt::Write>(
    f: &mut fmt::Formatter<W>,
    book: &Book,
    row: OrderRow,
) -> fmt::Result {
    write!(f, " | {} {} {}", row.recipe, row.first, row.words)?;
    for parameter in 0..PARAMETERS {
        write_group(f, book.line(), book.values(row), parameter)?;
    }
    Ok(())
}

impl fmt::Display for ReadingText<'_> {
    fn fmt<W: fmt::Write>(&self, f: &mut fmt::Formatter<W>) -> fmt::Result {
        let orders = self.book.orders();
        write!(f, "reading {}", orders.len())?;
        for row in orders {
            write_order(f, self.book, *row)?;
        }
        Ok(())
    }
}

// The letter of a role.
// Kept: the letters are those of this text alone, so a match here is plainer than a type that wraps a role to print it.
fn letter(role: Role) -> &'static str {
    match role {
        Role::PathWord => "p",
        Role::SwitchWord => "s",
        Role::SwitchValue => "v",
        Role::EndMark => "e",
        Role::PlainWord { .. } => "a",
    }
}

impl fmt::Display for RolesText<'_> {
    fn fmt<W: fmt::Write>(&self, f: &mut fmt::Formatter<W>) -> fmt::Result {
        f.write_str("roles ")?;
        for role in self.book.roles() {
            f.write_str(letter(*role))?;
        }
        Ok(())
    }
}
