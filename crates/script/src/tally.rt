// What a run has done.
ghost use Rattle.std.specs.Prelude.{◌≡◌, ◌+◌, ◌-◌, ◌^◌, min, ◌++◌, IfOk, string_bytes, codes, decimal};

use std::alloc::{AllocError, Global};

// Lines taken, their words, and refusals; a count stays at its top.
#[derive(Clone, Copy, Default)]
pub struct Tally {
    pub lines: u64,
    pub words: u64,
    pub refusals: u64,
}

impl Tally {
    pub fn new() -> Tally
        ensures { result ≡ record { lines = 0; words = 0; refusals = 0 } }
    {
        Tally::default()
    }

    // One line more, of so many words.
    pub fn take(&mut self, words: usize)
        ensures { self.new ≡ record { lines = min (self.old.lines + 1) (2 ^ 64 - 1); words = min (self.old.words + words) (2 ^ 64 - 1); refusals = self.old.refusals } }
    {
        self.lines = self.lines.saturating_add(1);
        self.words = self.words.saturating_add(words as u64);
    }

    // One refusal more.
    pub fn refuse(&mut self)
        ensures { self.new ≡ record { lines = self.old.lines; words = self.old.words; refusals = min (self.old.refusals + 1) (2 ^ 64 - 1) } }
    {
        self.refusals = self.refusals.saturating_add(1);
    }

    pub fn summary(&self, heap: Global) -> Result<String, AllocError>
        ensures { IfOk result (λ answer. string_bytes answer ≡ codes "done: lines " ++ (decimal self.now.lines ++ (codes " words " ++ (decimal self.now.words ++ (codes " refusals " ++ decimal self.now.refusals))))) }
    {
        let Tally {
            lines,
            words,
            refusals,
        } = *self;
        format!(in heap; "done: lines {lines} words {words} refusals {refusals}")
    }
}
