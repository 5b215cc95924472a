// A switch word taken apart.
ghost use Rattle.std.specs.Prelude.{◌≡◌, ◌≤◌, true, length};
ghost use Rattle.std.specs.Option.{option_map};
ghost use Rattle.text.specs.Spans.{text_at};
ghost use Rattle.reading.specs.Switches.{is_dashed, two_dashes, name, attached};

use text::span::Span;
use text::span::texts::text_at;

// Whether a word starts with two dashes.
fn is_long(word: &[u8]) -> bool
    ensures { result ≡ two_dashes word.now }
{
    matches!(word, [b'-', b'-', ..])
}

// One long name or letters, and what stands behind the first `=`.
#[derive(Drop)]
pub(crate) struct SwitchWord<'a> {
    pub long: bool,
    pub name: &'a [u8],
    pub value: Option<Span>,
}

impl<'a> SwitchWord<'a> {
    pub(crate) fn of(bytes: &'a [u8], span: Span) -> SwitchWord<'a>
        requires dashed { is_dashed (text_at bytes.now span) ≡ true }
        ensures long { result.long ≡ two_dashes (text_at bytes.now span) }
        ensures name { result.name.now ≡ name (text_at bytes.now span) }
        ensures value { option_map (text_at bytes.now) result.value ≡ attached (text_at bytes.now span) }
        ensures within { length result.name.now ≤ length (text_at bytes.now span) }
    {
        let text = text_at(bytes, span);
        let long = is_long(text);
        let dashes = if long { 2 } else { 1 };
        let rest = &text[dashes..];
        match rest.iter().position(|b| *b == b'=') {
            Some(at) => {
                let behind = dashes + at + 1;
                SwitchWord {
                    long,
                    name: &rest[..at],
                    value: Some(Span {
                        start: span.start + behind,
                        len: span.len - behind,
                    }),
                }
            }
            None => SwitchWord {
                long,
                name: rest,
                value: None,
            },
        }
    }
}
