// The call that reads a kept text back.
ghost use Rattle.std.specs.Prelude.{◌≡◌, ◌==◌, take, None as Nothing};
ghost use Rattle.std.specs.List.{find};
ghost use Rattle.std.specs.Option.{option_map};
ghost use Rattle.reading.specs.Reading.{group};
ghost use Rattle.book.specs.Kept.{row_kept};
ghost use Rattle.console.specs.Keeps.{view};
ghost use Rattle.console.specs.History.{Event};
ghost use Rattle.console.specs.Right.{first_text};
ghost use Rattle.console.specs.State.{Adds, FoundRow, texts};

use crate::console::Console;
use book::order_row::OrderRow;
use reader::counts::source_text;
use reader::source::{Source, ValueRow};
use refusal::Refusal;
use register::register::Register;

// Where the first text of a parameter stands.
fn first_source(rows: &[ValueRow], parameter: usize) -> Option<Source>
    ensures { result ≡ option_map (λ row. row.source) (find (λ row. row.parameter == parameter) rows.now) }
{
    rows.iter()
        .find(|row| row.parameter == parameter)
        .map(|row| row.source)
}

impl Console {
    // The row of the kept order with this serial.
    fn row_of(&self, serial: u32) -> Option<OrderRow>
        ensures { FoundRow (view self.now) serial result }
    {
        if !self.keeps_line() {
            return None;
        }
        let row = serial.checked_sub(self.first + self.base)?;
        self.book.orders().get(row as usize).copied()
    }

    // The first text that the line has for a parameter of the order in a row.
    fn text_of(&self, row: OrderRow, parameter: usize) -> Option<&[u8]>
        ensures { option_map (λ x. x.now) result ≡ first_text (group parameter (row_kept (take self.now.book.fill.bytes self.now.book.bytes) self.now.book.values row).values) Nothing }
    {
        let line = self.book.line();
        let rows = self.book.values(row);
        first_source(rows, parameter).map(|source| source_text(line, source))
    }

    // The first text of a parameter of a kept order: a part of the line, `true`, or the default's text by this register.
    pub fn readback<'a, R: Register>(
        &'a self,
        register: &'a R,
        serial: u32,
        parameter: usize,
    ) -> Result<Option<&'a [u8]>, Refusal>
        ensures { Adds self.now (Event.readback (R.Register.signatures register.now) serial parameter (texts (λ x. x.now) result)) self.now }
    {
        let Some(row) = self.row_of(serial) else {
            return Err(Refusal::NotKept);
        };
        if parameter >= register.count(row.recipe) {
            return Err(Refusal::NoSuchParameter);
        }
        let text = self.text_of(row, parameter);
        Ok(text.or_else(|| register.default_text(row.recipe, parameter)))
    }
}
