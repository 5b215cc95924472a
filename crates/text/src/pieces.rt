ghost use Rattle.std.specs.Prelude.{◌≡◌, ◌≤◌, List, length, Decides};
ghost use Rattle.std.specs.Iterator.{YieldsFirstBy, item_count};
ghost use Rattle.text.specs.Identifier.{Text};
ghost use Rattle.text.specs.Pieces.{Pieces, Unclosed, has_colon, piece_length, well_formed, unclosed};
ghost use Rattle.text.specs.Left.{pieces_left};

use crate::identifier::is_identifier;

// Whether a colon stands in a word.
pub fn has_colon(word: &[u8]) -> bool
    ensures { result ≡ has_colon word.now }
{
    word.contains(&b':')
}

// How long the first piece of a word is: up to the first separator, or to the end.
pub fn piece_length(word: &[u8]) -> usize
    ensures value { result ≡ piece_length word.now }
    ensures within { result ≤ length word.now }
{
    word.windows(2)
        .position(|pair| matches!(pair, b"::"))
        .unwrap_or(word.len())
}

// The pieces that are left of a word: what stands behind the last separator that was passed, or nothing.
#[derive(Drop)]
pub struct Split<'a> {
    pub rest: Option<&'a [u8]>,
}

impl<'a> Iterator for Split<'a> {
    type Item = &'a [u8];

    ghost next_gives = { YieldsFirstBy (λ piece. piece.now) pieces_left };

    ghost remaining = { item_count pieces_left };

    fn next(&mut self) -> Option<&'a [u8]> {
        let text = self.rest?;
        let len = piece_length(text);
        self.rest = text.get(len + 2..);
        Some(&text[..len])
    }
}

// Whether every piece of a word is an identifier.
pub fn is_well_formed(word: &[u8]) -> bool
    ensures value { result ≡ well_formed word.now }
    ensures means { Decides result ((pieces : List Text) × Pieces word.now pieces) }
{
    Split { rest: Some(word) }.all(is_identifier)
}

// A word without one closing separator.
pub fn without_closing(word: &[u8]) -> &[u8]
    ensures value { result.now ≡ unclosed word.now }
    ensures means { Unclosed word.now result.now }
{
    word.strip_suffix(b"::").unwrap_or(word)
}
