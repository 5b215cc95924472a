ghost use Rattle.std.specs.Prelude.{◌≡◌, ℕ, List, take};
ghost use Rattle.text.specs.Spans.{texts_at};
ghost use Rattle.judge.specs.Listed.{listed};
ghost use Rattle.judges.specs.Patterns.{texts_over};

use judge::Judge;
use judge::listed::is_listed;
use text::part::front;
use text::span::Span;
use tree::rows::PatternRow;

// Accepts the listed texts of a pattern.
#[derive(Clone, Copy)]
pub struct TextsJudge<'a> {
    pub image: &'a [u8],
    pub patterns: &'a [PatternRow],
}

// The spans that a row holds.
fn row_spans(row: &PatternRow) -> &[Span]
    ensures { result.now ≡ take row.now.count row.now.texts }
{
    front(&row.texts, row.count)
}

// The spans of a pattern: none without such a pattern, or without that field.
fn spans_of(patterns: &[PatternRow], pattern: u8) -> &[Span]
    ensures { (image text : List ℕ) → listed (texts_at image result.now) text ≡ texts_over image patterns.now pattern text }
{
    patterns
        .get(pattern as usize)
        .map(row_spans)
        .unwrap_or_default()
}

impl<'a> Judge for TextsJudge<'a> {
    ghost accepts = { λ j. texts_over j.image.now j.patterns.now };

    fn belongs(&self, pattern: u8, text: &[u8]) -> bool {
        is_listed(self.image, spans_of(self.patterns, pattern), text)
    }
}
