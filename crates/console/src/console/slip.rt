// Slips.
ghost use Rattle.std.specs.Prelude.{◌≡◌, IsTrue, ◌↔◌};
ghost use Rattle.console.specs.State.{Owed, TakesBack};

use crate::console::Console;
use refusal::Refusal;

mod acknowledge;
mod issue;
mod lost;

// What an issue hands out: the console's number and the order's serial. It is owed until acknowledge or lost takes it back,
// and only the calls below make or spend one.
pub struct Slip {
    number: u32,
    serial: u32,
}

impl Slip {
    fn new(number: u32, serial: u32) -> Slip
        ensures { result ≡ record { number = number; serial = serial } }
    {
        Slip { number, serial }
    }

    fn spend(self) {
        let Slip {
            number: _,
            serial: _,
        } = self;
    }
}

impl Console {
    // Whether this is the slip of the order that is out.
    fn is_owed(&self, slip: &Slip) -> bool
        ensures { IsTrue result ↔ Owed self.now slip.now }
    {
        self.out && slip.number == self.number && slip.serial == self.next_serial()
    }

    // Spends the slip of the order that is out, and the order waits again.
    fn take_back(&mut self, slip: Slip) -> Result<(), (Slip, Refusal)>
        ensures { TakesBack slip self.old result self.new }
    {
        if !self.is_owed(&slip) {
            return Err((slip, Refusal::WrongSlip));
        }
        slip.spend();
        self.out = false;
        Ok(())
    }
}
