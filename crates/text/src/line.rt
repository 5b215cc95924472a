// A line of words.
ghost use Rattle.std.specs.Prelude.{◌≡◌, ◌≤◌, true, take};
ghost use Rattle.text.specs.Spans.{texts_at};
ghost use Rattle.text.specs.Line.{closed, all_bare};
ghost use Rattle.text.specs.Lead.{all_valid};

use crate::span::Span;

pub mod cut;

pub const LINE_BYTES: usize = 1024;

pub const LINE_WORDS: usize = 128;

// A line within the limits: its bytes, and its words as a table of places in them.
// Kept: tables with a length beside, since a line is `Copy`, which the library's fixed vector is not.
#[derive(Clone, Copy)]
pub struct Line {
    bytes: [u8; 1024],
    size: usize,
    words: [Span; 128],
    count: usize,
    ghost short: { size ≤ 1024 },
    ghost few: { count ≤ 128 },
    ghost whole: { closed (texts_at (take size bytes) (take count words)) ≡ take size bytes },
    ghost zeroless: { all_bare (texts_at (take size bytes) (take count words)) ≡ true },
    ghost valid: { all_valid (texts_at (take size bytes) (take count words)) ≡ true },
}
