// Where the orders of a line go.
ghost use Rattle.std.specs.Prelude.{ℕ, ◌≤◌, Bool, List, [], length};
ghost use Rattle.refusal.specs.declared.Refusal.{Refusal as Fault};
ghost use Rattle.reader.specs.Told.{ToldOrder, as_told, Took, Counts, HasRoom};

use crate::read_order::ReadOrder;
use refusal::Refusal;

// A taker is told a line, and then each order of its reading, in sequence. It may keep them, count them or compare them, and it may refuse one.
pub trait Taker {
    // Of the line with these bytes it was told these orders, and no others.
    ghost told: { Self → List ℕ → List ToldOrder → Type 0 };

    // The refusals that it may answer by itself.
    ghost refuses: { Fault → Bool };

    // How it stands in a line of which it was told these orders, beside how it stood before the line began: what it keeps of earlier lines.
    ghost since: { Self → Self → List ToldOrder → Type 0 };

    // A line begins.
    fn start(&mut self, bytes: &[u8])
        requires { length bytes.now ≤ 1024 }
        ensures line { told self.new bytes.now [] }
        ensures since { since self.old self.new [] };

    // An order. With it, no more is told than lines within the limits have.
    fn take(&mut self, order: ReadOrder) -> Result<(), Refusal>
        requires { HasRoom (told self.old) (as_told order) }
        ensures took { Took refuses (told self.old) (told self.new) (as_told order.entry) result }
        ensures since { (before : Self) → Counts (since before self.old) (since before self.new) (as_told order.entry) result };
}
