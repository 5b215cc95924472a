// The call that reads a line and keeps it.
ghost use Rattle.console.specs.State.{Admits, Leaves};

use crate::admitted::Admitted;
use crate::console::Console;
use crate::console::restore::Restore;
use book::read::read_line;
use judge::Judge;
use refusal::Refusal;
use register::register::Register;

// How many serials there are with 0.
const SERIALS: u64 = 4294967296;

impl Console {
    // Reads a line by a register and a judge, keeps the reading, and gives its orders the next serials.
    pub fn admit<R: Register, J: Judge>(
        &mut self,
        register: &R,
        judge: &J,
        line: &[u8],
    ) -> Result<Admitted, Refusal>
        ensures law { Admits self.old (record { names = R.Register.names register.now; signatures = R.Register.signatures register.now; judge = J.Judge.accepts judge.now; line = line.now }) result self.new }
        ensures refused { Leaves result self.old self.new }
    {
        if self.keeps_line() {
            return Err(Refusal::LineKept);
        }
        let old = self.book.fill;
        let guard = Restore {
            book: &mut self.book,
            old,
        };
        read_line(register, judge, line, &mut self.parser, guard.book)?;
        let orders = guard.book.orders().len();
        if self.first as u64 + self.total as u64 + orders as u64 > SERIALS {
            return Err(Refusal::SerialsEnd);
        }
        guard.keep();
        self.base = self.total;
        self.total += orders as u32;
        self.at = 0;
        self.shown = [0; 128];
        Ok(Admitted {
            serial: self.first + self.base,
            orders,
        })
    }
}
