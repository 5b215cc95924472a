ghost use Rattle.std.specs.Prelude.{◌≡◌};
ghost use Rattle.text.specs.Spans.{text_at};

use crate::part::part;
use crate::span::Span;

// The text at a span, cut short where the bytes end.
pub fn text_at<'a>(bytes: &'a [u8], span: Span) -> &'a [u8]
    ensures { result.now ≡ text_at bytes.now span }
{
    part(bytes, span.start, span.len)
}
