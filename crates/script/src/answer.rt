// The text of the answers.
ghost use Rattle.std.specs.Prelude.{◌≡◌, IfOk, Some, string_bytes};
ghost use Rattle.refusal.specs.Told.{told_of};
ghost use Rattle.text.specs.Lines.{words_of};
ghost use Rattle.text.specs.Spans.{texts_at};
ghost use Rattle.script.specs.Answer.{refused_text, words_text, word_text, listed};

use crate::hex::HexText;
use refusal::Refusal;
use std::alloc::{AllocError, Global};
use std::fmt;
use text::line::Line;
use text::span::Span;
use text::span::texts::text_at;

// `refused`, and the refusal's five numbers.
pub fn refused(heap: Global, refusal: Refusal) -> Result<String, AllocError>
    ensures { IfOk result (λ answer. string_bytes answer ≡ refused_text (told_of refusal)) }
{
    format!(in heap; "{refusal}")
}

// A word, shown in hexadecimal digits; an empty one as a dash.
#[derive(Clone, Copy)]
pub struct WordText<'a> {
    pub word: &'a [u8],
}

impl fmt::Display for WordText<'_> {
    ghost output = { λ text. Some (word_text text.word.now) };

    fn fmt<W: fmt::Write>(&self, f: &mut fmt::Formatter<W>) -> fmt::Result {
        match self.word {
            [] => f.write_str("-"),
            bytes => write!(f, "{}", HexText { bytes }),
        }
    }
}

// Words, shown each behind a space.
#[derive(Clone, Copy)]
struct ListText<'a> {
    bytes: &'a [u8],
    words: &'a [Span],
}

impl fmt::Display for ListText<'_> {
    ghost output = { λ text. Some (listed (texts_at text.bytes.now text.words.now)) };

    fn fmt<W: fmt::Write>(&self, f: &mut fmt::Formatter<W>) -> fmt::Result {
        for span in self.words {
            let word = text_at(self.bytes, *span);
            write!(f, " {}", WordText { word })?;
        }
        Ok(())
    }
}

// `words`, their number, and each word behind a space.
pub fn words(heap: Global, line: &Line) -> Result<String, AllocError>
    ensures { IfOk result (λ answer. string_bytes answer ≡ words_text (words_of line.now)) }
{
    let words = line.words();
    let count = words.len();
    let bytes = line.bytes();
    format!(in heap; "words {count}{}", ListText { bytes, words })
}
