// A place in an image, and the readings that leave a step to closures.
ghost use Rattle.std.specs.Prelude.{◌≡◌};
ghost use Rattle.std.specs.Fn.{FnOnceReturnsAtMut};
ghost use Rattle.refusal.specs.declared.Refusal.TheVariants.{OutOfRange};
ghost use Rattle.format.specs.Fields.{bit};
ghost use Rattle.format.specs.Calls.{ReadsIf, Checks};

use crate::maps::has;
use crate::numbers::Number;
use refusal::Refusal;

#[derive(Drop)]
pub struct Cursor<'a> {
    pub image: &'a [u8],
    pub at: usize,
}

impl Cursor<'_> {
    // What stands only if its bit does.
    pub fn read_if<N: Number, V, R: FnOnce(&mut Cursor) -> Result<V, Refusal>>(
        &mut self,
        map: N,
        place: u16,
        read: R,
    ) -> Result<Option<V>, Refusal>
        requires { R.IsAlwaysCallable read }
        ensures { ReadsIf (λ c r d. FnOnceReturnsAtMut R.FnOnce read c r d) (bit place (N.value map)) self.old result self.new }
    {
        if has(map, place) {
            read(self).map(Some)
        } else {
            Ok(None)
        }
    }

    // What is read, if it passes the test; else the refusal, at the place where it starts.
    pub fn read_checked<
        V: Copy,
        R: FnOnce(&mut Cursor) -> Result<V, Refusal>,
        T: FnOnce(V) -> bool,
        E: FnOnce(usize) -> Refusal,
    >(&mut self, read: R, test: T, refusal: E) -> Result<V, Refusal>
        requires read { R.IsAlwaysCallable read }
        requires test { T.IsAlwaysCallable test }
        requires refusal { E.IsAlwaysCallable refusal }
        ensures { Checks (λ c r d. FnOnceReturnsAtMut R.FnOnce read c r d) (λ v b. T.post test v b) (λ at e. E.post refusal at e) self.old result self.new }
    {
        let at = self.at;
        let value = read(self)?;
        if test(value) {
            Ok(value)
        } else {
            Err(refusal(at))
        }
    }

    // What is read, if it passes the test; else it is out of range.
    pub fn read_in_range<
        V: Copy,
        R: FnOnce(&mut Cursor) -> Result<V, Refusal>,
        T: FnOnce(V) -> bool,
    >(&mut self, read: R, test: T) -> Result<V, Refusal>
        requires read { R.IsAlwaysCallable read }
        requires test { T.IsAlwaysCallable test }
        ensures { Checks (λ c r d. FnOnceReturnsAtMut R.FnOnce read c r d) (λ v b. T.post test v b) (λ at e. e ≡ OutOfRange at) self.old result self.new }
    {
        self.read_checked(read, test, |at| Refusal::OutOfRange { at })
    }
}
