ghost use Rattle.judge.specs.Meaning.{either_of};

use crate::Judge;

// Accepts what either of two judges does.
#[derive(Clone, Copy, Drop)]
pub struct Either<A, B> {
    pub first: A,
    pub second: B,
}

impl<A: Judge, B: Judge> Judge for Either<A, B> {
    ghost accepts = { λ e. either_of (A.Judge.accepts e.first) (B.Judge.accepts e.second) };

    fn belongs(&self, pattern: u8, text: &[u8]) -> bool {
        self.first.belongs(pattern, text) || self.second.belongs(pattern, text)
    }
}
