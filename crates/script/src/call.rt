// A line of the script, taken apart.
ghost use Rattle.std.specs.Prelude.{◌≡◌, ◌==◌, ◌++◌, IfOk, Some, OnOk, position};
ghost use Rattle.std.specs.Option.{option_map};
ghost use Rattle.script.specs.Call.{skipped, Parted, verb_of, typed_as, line_of, with_digit, number_of};

use std::alloc::{AllocError, Global};

// What a script line asks for.
#[derive(Clone, Copy)]
pub enum Verb {
    Words,
    WordsHex,
    Find,
    Recipe,
    Judge,
    Help,
}

// A script line: the call's name, and what stands behind the first space.
pub struct Call<'a> {
    pub name: &'a [u8],
    pub rest: Option<&'a [u8]>,
}

impl Verb {
    // The call of a name.
    pub fn named(name: &[u8]) -> Option<Verb>
        ensures { result ≡ verb_of name.now }
    {
        match name {
            b"words" => Some(Verb::Words),
            b"wordsx" => Some(Verb::WordsHex),
            b"find" => Some(Verb::Find),
            b"recipe" => Some(Verb::Recipe),
            b"judge" => Some(Verb::Judge),
            b"help" => Some(Verb::Help),
            _ => None,
        }
    }
}

// Whether a line asks for nothing: it is blank, or a comment.
pub fn is_skipped(line: &[u8]) -> bool
    ensures { result ≡ skipped line.now }
{
    matches!(line, [] | [b'#', ..])
}

// Where the first space stands.
fn first_space(line: &[u8]) -> Option<usize>
    ensures { result ≡ position (λ b. b == 32) line.now }
{
    line.iter().position(|b| *b == b' ')
}

// The call of a line, parted at its first space.
pub fn part(line: &[u8]) -> Call<'_>
    ensures { Parted line.now result }
{
    match first_space(line) {
        Some(at) => Call {
            name: &line[..at],
            rest: Some(&line[at + 1..]),
        },
        None => Call {
            name: line,
            rest: None,
        },
    }
}

// What a typed byte is in the line: a space closes a word.
fn typed(b: u8) -> u8
    ensures { result ≡ typed_as b }
{
    if b == b' ' { 0 } else { b }
}

// Adds the words of a text with a space between them: a space closes a word, and the end does.
fn push_typed(line: &mut Vec<u8>, text: &[u8]) -> Result<(), AllocError>
    ensures { OnOk result (line.new.items ≡ line.old.items ++ line_of (Some text.now)) }
{
    for b in text {
        line.push(typed(*b))?;
    }
    line.push(0)?;
    Ok(())
}

// The line of words that were typed with a space between them. Nothing typed is the empty line.
pub fn typed_line(heap: Global, rest: Option<&[u8]>) -> Result<Vec<u8>, AllocError>
    ensures { IfOk result (λ line. line.items ≡ line_of (option_map (λ x. x.now) rest.entry)) }
{
    let mut line = Vec::new(heap);
    if let Some(text) = rest {
        push_typed(&mut line, text)?;
    }
    Ok(line)
}

// A number with one more digit behind it, up to 65,535.
fn with_digit(so_far: u16, digit: u8) -> Option<u16>
    ensures { result ≡ with_digit so_far digit }
{
    let value = char::from(digit).to_digit(10)?;
    so_far.checked_mul(10)?.checked_add(value as u16)
}

// A decimal number up to 65,535, in digits alone.
pub fn number(text: &[u8]) -> Option<u16>
    ensures { result ≡ number_of text.now }
{
    match text {
        [] => None,
        digits => digits
            .iter()
            .try_fold(0, |so_far, digit| with_digit(so_far, *digit)),
    }
}
