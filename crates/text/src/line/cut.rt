// Cutting a line into its words.
ghost use Rattle.std.specs.Prelude.{◌≡◌, ℕ, ◌<◌, ◌≤◌, Bool, true, length, take, MatchOption, MatchResult};
ghost use Rattle.text.specs.Spans.{texts_at};
ghost use Rattle.text.specs.Line.{Within, Oversteps, LineStands};
ghost use Rattle.text.specs.Lines.{ends, Filled, FirstGarbled, bytes_of, words_of};

use crate::line::{LINE_BYTES, LINE_WORDS, Line};
use crate::part::front;
use crate::span::Span;
use crate::span::texts::text_at;
use crate::utf8::is_utf8;
use refusal::Refusal;

// Whether a line is empty or ends with a zero byte.
fn is_closed(bytes: &[u8]) -> bool
    ensures { result ≡ ends bytes.now }
{
    bytes.last().is_none_or(|last| *last == 0)
}

// Fills the table with the words of a closed line; tells how many there are, or none where there are too many.
// Kept: `count` and `start` are kept by hand, since a loop over `split_inclusive` needs both as well: a word's place starts where the last one ended.
fn fill(bytes: &[u8], words: &mut [Span; 128]) -> Option<usize>
    requires { ends bytes.now ≡ true }
    ensures filled { Filled bytes.now words.new result }
    ensures long { length words.new ≡ 128 }
{
    let mut count = 0;
    let mut start = 0;
    for (i, b) in bytes.iter().enumerate() {
        if *b == 0 {
            if count == LINE_WORDS {
                return None;
            }
            words[count] = Span {
                start,
                len: i - start,
            };
            count += 1;
            start = i + 1;
        }
    }
    Some(count)
}

// The first word that is not UTF-8.
fn first_garbled(bytes: &[u8], words: &[Span]) -> Option<usize>
    ensures { FirstGarbled (texts_at bytes.now words.now) result }
{
    words
        .iter()
        .position(|word| !is_utf8(text_at(bytes, *word)))
}

// A table with these bytes in front.
fn copied(bytes: &[u8]) -> [u8; 1024]
    requires { length bytes.now ≤ 1024 }
    ensures { take (length bytes.now) result ≡ bytes.now }
{
    let mut table = [0; 1024];
    table[..bytes.len()].copy_from_slice(bytes);
    table
}

impl Line {
    // The line of these bytes, or the first limit that they overstep.
    pub fn cut(bytes: &[u8]) -> Result<Line, Refusal>
        ensures { MatchResult result (λ line. (bytes_of line ≡ bytes.now) × Within bytes.now (words_of line)) (Oversteps bytes.now) }
    {
        if bytes.len() > LINE_BYTES {
            return Err(Refusal::LineTooLong);
        }
        if !is_closed(bytes) {
            return Err(Refusal::LineNotClosed);
        }
        let mut words = [Span { start: 0, len: 0 }; 128];
        let Some(count) = fill(bytes, &mut words) else {
            return Err(Refusal::TooManyWords);
        };
        if let Some(word) = first_garbled(bytes, &words[0..count]) {
            return Err(Refusal::WordNotUtf8 { word });
        }
        Ok(Line {
            bytes: copied(bytes),
            size: bytes.len(),
            words,
            count,
        })
    }

    pub fn bytes(&self) -> &[u8]
        ensures { result.now ≡ bytes_of self.now }
    {
        front(&self.bytes, self.size)
    }

    // The places of the words, of which a part from any word on can be handed on.
    pub fn words(&self) -> &[Span]
        ensures value { texts_at (bytes_of self.now) result.now ≡ words_of self.now }
        ensures within { Within (bytes_of self.now) (words_of self.now) }
    {
        front(&self.words, self.count)
    }
}

// A line has one list of words at most, and one first limit that it oversteps, or none.
pub fn line_stands() -> u8
    ensures { LineStands }
{
    0
}
