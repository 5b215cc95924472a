// What an order tells.
ghost use Rattle.std.specs.Prelude.{◌≡◌, ◌≤◌, length};

use crate::invocation::Invocation;
use crate::source::ValueRow;

impl Invocation {
    // How many words it has.
    pub fn words(&self) -> usize
        ensures { result ≡ self.now.words }
    {
        self.words
    }

    // Its values, in sequence.
    pub fn values(&self) -> &[ValueRow]
        ensures value { result.now ≡ self.now.values.rows.items }
        ensures few { length result.now ≤ 1024 }
    {
        self.values.rows()
    }
}
