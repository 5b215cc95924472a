ghost use Rattle.std.specs.Prelude.{◌≡◌, Decides};
ghost use Rattle.std.specs.List.{ContainsAt as Has};
ghost use Rattle.text.specs.Spans.{texts_at};
ghost use Rattle.judge.specs.Listed.{listed};

use text::span::Span;
use text::span::texts::text_at;

// Whether a text is one of those that stand at the spans.
pub fn is_listed(bytes: &[u8], spans: &[Span], text: &[u8]) -> bool
    ensures value { result ≡ listed (texts_at bytes.now spans.now) text.now }
    ensures means { Decides result (Has (texts_at bytes.now spans.now) text.now) }
{
    spans.iter().any(|span| text_at(bytes, *span) == text)
}
