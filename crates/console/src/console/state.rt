// Questions about the state.
ghost use Rattle.std.specs.Prelude.{◌≡◌, ◌+◌, ◌-◌, ◌<◌, if◌then◌else◌, nat_lt};
ghost use Rattle.console.specs.Keeps.{view};
ghost use Rattle.console.specs.State.{issued_at};

use crate::console::Console;
use crate::issued::Issued;

impl Console {
    // Whether a line is kept: one of its orders is out or waits.
    pub(crate) fn keeps_line(&self) -> bool
        ensures { result ≡ nat_lt self.now.at self.now.book.fill.orders }
    {
        self.at < self.book.fill.orders
    }

    // The serial of the order that is out, or else of the first that waits.
    pub(crate) fn next_serial(&self) -> u32
        requires { self.now.at < self.now.book.fill.orders }
        ensures { result ≡ self.now.first + self.now.base + self.now.at }
    {
        self.first + self.base + self.at as u32
    }

    // How many orders wait.
    pub(crate) fn waiting(&self) -> usize
        ensures { result ≡ self.now.book.fill.orders - (self.now.at + (if self.now.out then 1 else 0)) }
    {
        self.book.fill.orders - self.at - usize::from(self.out)
    }

    // What an issue tells of the first order that waits.
    pub(crate) fn next_issued(&self) -> Issued
        requires { self.now.at < self.now.book.fill.orders }
        ensures { result ≡ issued_at (view self.now) }
    {
        let row = self.book.orders[self.at];
        Issued {
            serial: self.next_serial(),
            recipe: row.recipe,
            first: row.first,
            words: row.words,
            earlier: self.shown[self.at],
        }
    }
}
