// The orders of a line, one after the other.
ghost use Rattle.std.specs.Prelude.{◌≡◌, ◌<◌, ◌≤◌, false, List, length};
ghost use Rattle.refusal.specs.declared.Refusal.{Refusal as Fault};
ghost use Rattle.text.specs.Line.{closed};
ghost use Rattle.text.specs.Lines.{bytes_of, words_of};
ghost use Rattle.text.specs.Spans.{texts_at};
ghost use Rattle.reader.specs.Told.{ToldOrder, Begun, ToldSince};
ghost use Rattle.reader.specs.Rest.{NextTold, AllTold, LineTold, EachTold};

use crate::invocation_parser::InvocationParser;
use crate::read_order::ReadOrder;
use crate::taker::Taker;
use judge::Judge;
use refusal::Refusal;
use register::register::Register;
use text::line::Line;
use text::span::Span;

impl InvocationParser {
    // Reads the order that starts at this word, tells it, and answers where the next one starts.
    // Kept: `bytes` and `words` are given one by one, here and below, since each order is read from a part of the words over all of the bytes.
    fn parse_next<R: Register, J: Judge, T: Taker>(
        &mut self,
        register: &R,
        judge: &J,
        bytes: &[u8],
        words: &[Span],
        first: usize,
        taker: &mut T,
    ) -> Result<usize, Refusal>
        requires room { length (closed (texts_at bytes.now words.now)) ≤ 1024 }
        requires few { length words.now ≤ 128 }
        requires start { first ≤ length words.now }
        requires early { first < 128 }
        requires begun { Begun (T.Taker.told taker.old) bytes.now words.now first }
        ensures next { (before : T) → NextTold (R.Register.names register.now) (R.Register.signatures register.now) (J.Judge.accepts judge.now) T.Taker.refuses (ToldSince T.Taker.told T.Taker.since before taker.old) (ToldSince T.Taker.told T.Taker.since before taker.new) bytes.now words.now first result }
        ensures since { (before : T) (os : List ToldOrder) → T.Taker.since before taker.old os → (now : List ToldOrder) × T.Taker.since before taker.new now }
    {
        let path = self
            .parse_invocation(register, judge, bytes, &words[first..])
            .map_err(|fault| fault.shifted(first))?;
        let count = self.order.words();
        taker.take(ReadOrder {
            recipe: path.recipe,
            first,
            path: path.words,
            words: count,
            roles: self.roles.as_slice(),
            values: self.order.values(),
        })?;
        Ok(first + count)
    }

    // Reads all orders of these words, and tells them.
    fn parse_all<R: Register, J: Judge, T: Taker>(
        &mut self,
        register: &R,
        judge: &J,
        bytes: &[u8],
        words: &[Span],
        taker: &mut T,
    ) -> Result<(), Refusal>
        requires size { length bytes.now ≤ 1024 }
        requires room { length (closed (texts_at bytes.now words.now)) ≤ 1024 }
        requires few { length words.now ≤ 128 }
        ensures since { (os : List ToldOrder) × T.Taker.since taker.old taker.new os }
        ensures all { AllTold (R.Register.names register.now) (R.Register.signatures register.now) (J.Judge.accepts judge.now) T.Taker.refuses (ToldSince T.Taker.told T.Taker.since taker.old taker.new) bytes.now (texts_at bytes.now words.now) result }
    {
        taker.start(bytes);
        // Kept: the place of the next order's word, since each order tells by itself how many words it takes.
        let mut next = self.parse_next(register, judge, bytes, words, 0, taker)?;
        while next < words.len() {
            next = self.parse_next(register, judge, bytes, words, next, taker)?;
        }
        Ok(())
    }

    // Reads a line: the taker is told its only lawful reading; or the answer is its first fault, unless the taker refuses by itself.
    pub fn parse_invocations<R: Register, J: Judge, T: Taker>(
        &mut self,
        register: &R,
        judge: &J,
        line: &Line,
        taker: &mut T,
    ) -> Result<(), Refusal>
        ensures line { LineTold (R.Register.names register.now) (R.Register.signatures register.now) (J.Judge.accepts judge.now) T.Taker.refuses (T.Taker.told taker.new) (bytes_of line.now) (words_of line.now) result }
        ensures since { (os : List ToldOrder) × T.Taker.since taker.old taker.new os }
        ensures each { ((f : Fault) → T.Taker.refuses f ≡ false) → EachTold (R.Register.names register.now) (R.Register.signatures register.now) (J.Judge.accepts judge.now) (ToldSince T.Taker.told T.Taker.since taker.old taker.new) (bytes_of line.now) (words_of line.now) result }
    {
        let bytes = line.bytes();
        let words = line.words();
        self.parse_all(register, judge, bytes, words, taker)
    }
}
