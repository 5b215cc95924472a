// Letters of a switch word, as code points.
ghost use Rattle.std.specs.Prelude.{◌≡◌, ◌+◌, ◌*◌, ◌<◌, ◌≤◌, [], ◌∷◌, length};
ghost use Rattle.std.specs.Str.{continuation_len, lead_bits};
ghost use Rattle.std.specs.Iterator.{YieldsFirst, item_count};
ghost use Rattle.reader.specs.Meaning.{letter_length, letter_code, with_tail};
ghost use Rattle.reader.specs.Letters.{letters_left};

// How many bytes follow a lead byte.
fn bytes_after(lead: u8) -> usize
    ensures value { result ≡ continuation_len lead }
    ensures few { result ≤ 3 }
{
    match lead {
        0..128 => 0,
        128..224 => 1,
        224..240 => 2,
        240.. => 3,
    }
}

// What a lead byte adds to the code point.
fn lead_bits(lead: u8) -> u32
    ensures value { result ≡ lead_bits lead }
    ensures small { result < 256 }
{
    u32::from(match lead {
        0..128 => lead,
        128..224 => lead.saturating_sub(192),
        224..240 => lead - 224,
        240.. => lead - 240,
    })
}

// A code point with the six bits of one more byte.
fn with_byte(code: u32, b: u8) -> u32
    requires { code < 4294967 }
    ensures value { result ≡ with_tail code (b ∷ []) }
    ensures small { result ≤ code * 64 + 127 }
{
    code * 64 + u32::from(b.saturating_sub(128))
}

// How many bytes the first letter of a text has.
pub(crate) fn letter_length(text: &[u8]) -> usize
    requires { 0 < length text.now }
    ensures value { result ≡ letter_length text.now }
    ensures some { 0 < result }
    ensures few { result ≤ 4 }
    ensures within { result ≤ length text.now }
{
    text.len().min(1 + bytes_after(text[0]))
}

// The code point that the bytes of a letter stand for.
pub fn letter_code(letter: &[u8]) -> u32
    ensures { length letter.now ≤ 4 → result ≡ letter_code letter.now }
{
    match letter {
        [a] => lead_bits(*a),
        [a, b] => with_byte(lead_bits(*a), *b),
        [a, b, c] => with_byte(with_byte(lead_bits(*a), *b), *c),
        [a, b, c, d] => with_byte(with_byte(with_byte(lead_bits(*a), *b), *c), *d),
        _ => 0,
    }
}

// A letter of a switch word, as a code point, and whether it is the last.
#[derive(Clone, Copy)]
pub(crate) struct SwitchLetter {
    pub code: u32,
    pub last: bool,
}

// The letters of a text.
#[derive(Drop)]
pub(crate) struct Letters<'a>(pub &'a [u8]);

impl<'a> Iterator for Letters<'a> {
    type Item = SwitchLetter;

    ghost next_gives = { YieldsFirst letters_left };

    ghost remaining = { item_count letters_left };

    #[inline]
    fn next(&mut self) -> Option<SwitchLetter> {
        if self.0.is_empty() {
            return None;
        }
        let (letter, rest) = self.0.split_at(letter_length(self.0));
        self.0 = rest;
        Some(SwitchLetter {
            code: letter_code(letter),
            last: rest.is_empty(),
        })
    }
}
