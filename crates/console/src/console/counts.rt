// The calls that count what waits.
ghost use Rattle.console.specs.History.{Event};
ghost use Rattle.console.specs.State.{Adds};

use crate::console::Console;
use crate::status::Status;

impl Console {
    // Drops all that waits, and tells how many orders those were.
    pub fn withdraw(&mut self) -> usize
        ensures { Adds self.old (Event.withdraw result) self.new }
    {
        let waiting = self.waiting();
        self.book.fill.orders -= waiting;
        waiting
    }

    // How many orders wait, and which is out.
    pub fn status(&self) -> Status
        ensures { Adds self.now (Event.status result) self.now }
    {
        Status {
            waiting: self.waiting(),
            out: self.out.then(|| self.next_serial()),
        }
    }
}
