// Words taken apart by their leading dashes, and words compared with fixed ones.
ghost use Rattle.std.specs.Prelude.{◌≡◌, codes};
ghost use Rattle.std.specs.Str.{bytes_eq};
ghost use Rattle.text.specs.Dashes.{TakenApart};

// A word as two dashes, or one where it does not start with two, and the rest.
// Kept: three cases that each say something of the word, and no value that may be missing.
pub enum Dashes<'a> {
    Two(&'a [u8]),
    One(&'a [u8]),
    Plain,
}

pub fn take_apart(word: &[u8]) -> Dashes<'_>
    ensures { TakenApart word.now result }
{
    match word {
        [b'-', b'-', rest @ ..] => Dashes::Two(rest),
        [b'-', rest @ ..] => Dashes::One(rest),
        _ => Dashes::Plain,
    }
}

// The end mark, behind which no word of the order is a switch.
pub fn is_end_mark(word: &[u8]) -> bool
    ensures { result ≡ bytes_eq word.now (codes "--") }
{
    matches!(word, b"--")
}

// The separator between the names of a path.
pub fn is_separator(bytes: &[u8]) -> bool
    ensures { result ≡ bytes_eq bytes.now (codes "::") }
{
    matches!(bytes, b"::")
}

// The text that a flag takes.
pub fn is_true(text: &[u8]) -> bool
    ensures { result ≡ bytes_eq text.now (codes "true") }
{
    matches!(text, b"true")
}
