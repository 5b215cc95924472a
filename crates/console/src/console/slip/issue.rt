// The call that makes a slip.
ghost use Rattle.std.specs.Prelude.{◌≡◌, ◌+◌, min};
ghost use Rattle.console.specs.Keeps.{kept};
ghost use Rattle.console.specs.History.{Event};
ghost use Rattle.console.specs.State.{Adds, Leaves};

use crate::console::Console;
use crate::console::slip::Slip;
use crate::issued::Issued;
use refusal::Refusal;

// One more, and at most 255.
fn one_more(count: u8) -> u8
    ensures { result ≡ min 255 (count + 1) }
{
    count.saturating_add(1)
}

impl Console {
    // Sends the first order that waits.
    pub fn issue(&mut self) -> Result<(Slip, Issued), Refusal>
        ensures law { Adds self.old (Event.issue (kept self.new) result) self.new }
        ensures refused { Leaves result self.old self.new }
    {
        if self.out {
            return Err(Refusal::OrderOut);
        }
        if !self.keeps_line() {
            return Err(Refusal::NoneWaiting);
        }
        let issued = self.next_issued();
        self.shown[self.at] = one_more(issued.earlier);
        self.out = true;
        let slip = Slip::new(self.number, issued.serial);
        Ok((slip, issued))
    }
}
