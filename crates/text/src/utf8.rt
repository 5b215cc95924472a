// UTF-8 by RFC 3629: the length that a lead byte announces, and the bytes that may follow it.
ghost use Rattle.std.specs.Prelude.{◌≡◌, ◌<◌, ◌≤◌, length, Decides, SomeIff, IfSome};
ghost use Rattle.text.specs.Lead.{announced as announced_by, tail, second, followed, front};
ghost use Rattle.text.specs.Utf8.{Utf8};

use crate::lengths::LENGTHS;

// The length of the character that a lead byte announces, or 0.
// Kept: 0 stands for none in this table, since options in a table of 256 bytes are no plainer; what is told outside is an option.
fn announced(lead: u8) -> u8
    ensures { result ≡ announced_by lead }
{
    LENGTHS[lead as usize]
}

fn is_tail(b: u8) -> bool
    ensures { result ≡ tail b }
{
    matches!(b, 0x80..=0xBF)
}

// Whether a byte may stand second, behind a lead byte of two to four: no overlong form, no surrogate, nothing above U+10FFFF.
fn may_follow(lead: u8, b: u8) -> bool
    ensures { result ≡ second lead b }
{
    let low = match lead {
        0xE0 => 0xA0,
        0xF0 => 0x90,
        _ => 0x80,
    };
    let high = match lead {
        0xED => 0x9F,
        0xF4 => 0x8F,
        _ => 0xBF,
    };
    (low..=high).contains(&b)
}

// Whether the bytes that a lead byte announces stand at the front.
fn is_followed(len: u8, bytes: &[u8]) -> bool
    requires { 0 < length bytes.now }
    ensures { result ≡ followed len bytes.now }
{
    match *bytes {
        [_, ..] if len == 1 => true,
        [lead, b, ..] if len == 2 => may_follow(lead, b),
        [lead, b, c, ..] if len == 3 => may_follow(lead, b) && is_tail(c),
        [lead, b, c, d, ..] if len == 4 => may_follow(lead, b) && is_tail(c) && is_tail(d),
        _ => false,
    }
}

// The length of the character at the front: none where no character stands there.
pub fn char_length(bytes: &[u8]) -> Option<usize>
    ensures value { SomeIff result (0 < front bytes.now) (front bytes.now) }
    ensures within { IfSome result (λ n. n ≤ length bytes.now) }
{
    let len = announced(*bytes.first()?);
    is_followed(len, bytes).then_some(len as usize)
}

// Whether the bytes are characters end to end.
// Kept: a walk by `char_length`, which is proved to be the grammar of RFC 3629; the library's `from_utf8` speaks of its own encoding, and no lemma leads from one to the other.
pub fn is_utf8(bytes: &[u8]) -> bool
    ensures { Decides result (Utf8 bytes.now) }
{
    let mut rest = bytes;
    while let Some(len) = char_length(rest) {
        rest = &rest[len..];
    }
    rest.is_empty()
}
