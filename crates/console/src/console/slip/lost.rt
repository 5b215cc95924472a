// The call that spends a slip and lets its order wait again.
ghost use Rattle.console.specs.History.{Event};
ghost use Rattle.console.specs.State.{Adds, Leaves};

use crate::console::Console;
use crate::console::slip::Slip;
use refusal::Refusal;

impl Console {
    // Returns the order that is out to the front of what waits.
    pub fn lost(&mut self, slip: Slip) -> Result<(), (Slip, Refusal)>
        ensures law { Adds self.old (Event.lost slip result) self.new }
        ensures refused { Leaves result self.old self.new }
    {
        self.take_back(slip)
    }
}
