// The call that spends a slip and finishes its order.
ghost use Rattle.console.specs.History.{Event};
ghost use Rattle.console.specs.State.{Adds, Leaves};

use crate::console::Console;
use crate::console::slip::Slip;
use refusal::Refusal;

impl Console {
    // Finishes the order that is out.
    pub fn acknowledge(&mut self, slip: Slip) -> Result<(), (Slip, Refusal)>
        ensures law { Adds self.old (Event.acknowledge slip result) self.new }
        ensures refused { Leaves result self.old self.new }
    {
        self.take_back(slip)?;
        self.at += 1;
        Ok(())
    }
}
