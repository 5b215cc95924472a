// Making and ending a console.
ghost use Rattle.console.specs.History.{History};
ghost use Rattle.console.specs.State.{Led, Ends};

use crate::console::Console;
use crate::status::Status;
use book::tables::Book;
use reader::invocation_parser::InvocationParser;

impl Console {
    // A console with its number and first serial; 0 means 1.
    // Kept: 0 has a meaning, since no call asks its caller to test beforehand.
    pub fn new(number: u32, first: u32) -> Console
        ensures { Led (History.made number first) result }
    {
        Console {
            number,
            first: first.max(1),
            base: 0,
            total: 0,
            at: 0,
            out: false,
            book: Book::new(),
            shown: [0; 128],
            parser: InvocationParser::new(),
        }
    }

    // Ends the console, and tells what still waits and is out.
    pub fn end(self) -> Status
        ensures { Ends self result }
    {
        let status = self.status();
        let Console {
            number: _,
            first: _,
            base: _,
            total: _,
            at: _,
            out: _,
            book: _,
            shown: _,
            parser: _,
        } = self;
        status
    }
}
