// Judges: whether a text belongs to a pattern.
#![tactic(auto)]

ghost use Rattle.std.specs.Prelude.{◌≡◌};
ghost use Rattle.judge.specs.Meaning.{JudgeMeaning};

pub mod either;
pub mod gauge;
pub mod listed;
mod metres;
pub mod rounding;

// A judge means a set of texts for each pattern number.
pub trait Judge {
    ghost accepts: { Self → JudgeMeaning };

    fn belongs(&self, pattern: u8, text: &[u8]) -> bool
        ensures { result ≡ accepts self.now pattern text.now };
}
