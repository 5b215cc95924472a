// Rows of an image, end to end.
ghost use Rattle.std.specs.Prelude.{◌≡◌, length};
ghost use Rattle.format.specs.Calls.{Fills};

use crate::cursor::Cursor;
use refusal::Refusal;

impl Cursor<'_> {
    // Fills rows one after another, each with the row before it at hand.
    pub fn read_rows<V: Copy, R: Fn(&mut Cursor, Option<V>) -> Result<V, Refusal>>(
        &mut self,
        rows: &mut [V],
        read: R,
    ) -> Result<(), Refusal>
        requires { R.IsAlwaysCallable read }
        ensures fills { Fills (λ last c r d. (p : _) × (q : _) × R.post read p last r q × (p.now ≡ c) × (q.now ≡ d)) rows.new self.old result self.new }
        ensures long { length rows.new ≡ length rows.old }
    {
        let mut last = None;
        for row in rows.iter_mut() {
            let value = read(self, last)?;
            *row = value;
            last = Some(value);
        }
        Ok(())
    }
}
