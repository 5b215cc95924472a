// One word of an order.
ghost use Rattle.std.specs.Prelude.{◌≡◌, ℕ, suc, ◌+◌, ◌<◌, ◌≤◌, true, List, [], length, Some, None, Ok, Err};
ghost use Rattle.text.specs.Spans.{text_at};
ghost use Rattle.reading.specs.Signature.{any_option};
ghost use Rattle.reading.specs.Switches.{is_dashed, Called as CalledParameter};
ghost use Rattle.reading.specs.Model.{started, step as step_of, free_step, value_step, plain_step, switch_step, end_step, taker};
ghost use Rattle.reading.specs.declared.role.Role.{Role as WordRole};
ghost use Rattle.register.specs.Meaning.{ParameterMeaning};
ghost use Rattle.reader.specs.Answers.{Shows, waiting_of};
ghost use Rattle.reader.specs.Signatures.{parameters_of};
ghost use Rattle.reader.specs.Steps.{state_of, next_of, Awaits, MayGrow, Grows};

use crate::awaited::Awaited;
use crate::invocation::Invocation;
use crate::signature::Signature;
use crate::source::Source;
use crate::values::Values;
use crate::word::apply_word;
use reading::role::Role;
use refusal::Refusal;
use register::register::Register;
use text::dashes::is_end_mark;
use text::span::Span;
use text::span::texts::text_at;

// A dash and more.
fn is_dashed(word: &[u8]) -> bool
    ensures { result ≡ is_dashed word.now }
{
    matches!(word, [b'-', _, ..])
}

impl Invocation {
    // An order behind its path.
    pub fn new(path: usize) -> Invocation
        ensures state { (ps : List ParameterMeaning) (bytes : List ℕ) → state_of ps bytes result [] ≡ started path }
        ensures words { result.words ≡ path }
        ensures fill { result.values.rows.items ≡ [] }
    {
        Invocation {
            words: path,
            ended: false,
            plains: 0,
            waiting: None,
            values: Values::new(),
        }
    }

    // Begins an order behind its path.
    // Kept: beside `new`, since a new order writes all rows of its table, and a line's orders share one that is written once.
    pub(crate) fn restart(&mut self, path: usize)
        ensures state { (ps : List ParameterMeaning) (bytes : List ℕ) → state_of ps bytes self.new [] ≡ started path }
        ensures words { self.new.words ≡ path }
        ensures fill { self.new.values.rows.items ≡ [] }
    {
        self.plains = 0;
        self.words = path;
        self.ended = false;
        self.waiting = None;
        self.values.rows.clear();
    }

    pub(crate) fn awaited<R: Register>(&self, signature: &Signature<'_, R>) -> Option<Awaited>
        ensures { Awaits (parameters_of R.Register.signatures signature.now) (waiting_of (parameters_of R.Register.signatures signature.now) self.now.waiting) result }
    {
        let waiting = self.waiting?;
        let called = signature.called(waiting.place)?;
        Some(Awaited {
            called,
            word: waiting.word,
            letter: waiting.letter,
        })
    }

    // The value of the switch that waits for it.
    fn value_word(&mut self, span: Span, awaited: Awaited) -> Result<Option<Role>, Refusal>
        requires { MayGrow 1 self.old }
        ensures next { (ps : List ParameterMeaning) (c : CalledParameter) (bytes : List ℕ) (roles : List WordRole) → Shows ps c awaited.called → next_of ps bytes roles result self.new ≡ value_step (state_of ps bytes self.old roles) (text_at bytes span) c awaited.word awaited.letter }
        ensures grows { Grows 1 self.old self.new result }
    {
        if self.values.is_full(awaited.called) {
            return Err(Refusal::DuplicateOption {
                word: awaited.word,
                letter: awaited.letter,
            });
        }
        self.values
            .push(awaited.called.place, Source::Part(span), self.words);
        self.waiting = None;
        self.words += 1;
        Ok(Some(Role::SwitchValue))
    }

    fn end_mark(&mut self) -> Result<Option<Role>, Refusal>
        requires words { self.old.words < 1024 }
        ensures next { (ps : List ParameterMeaning) (bytes : List ℕ) (roles : List WordRole) → next_of ps bytes roles result self.new ≡ end_step (state_of ps bytes self.old roles) }
        ensures grows { Grows 1 self.old self.new result }
    {
        self.ended = true;
        self.waiting = None;
        self.words += 1;
        Ok(Some(Role::EndMark))
    }

    fn plain_word<R: Register>(
        &mut self,
        signature: &Signature<'_, R>,
        span: Span,
    ) -> Result<Option<Role>, Refusal>
        requires { MayGrow 1 self.old }
        ensures next { (ps : List ParameterMeaning) (bytes : List ℕ) (roles : List WordRole) → next_of ps bytes roles result self.new ≡ plain_step (state_of ps bytes self.old roles) (text_at bytes span) (taker (parameters_of R.Register.signatures signature.now) self.old.plains) }
        ensures grows { Grows 1 self.old self.new result }
    {
        let Some(parameter) = signature.plain_place(self.plains) else {
            return Ok(None);
        };
        self.values.push(parameter, Source::Part(span), self.words);
        self.waiting = None;
        self.words += 1;
        self.plains += 1;
        Ok(Some(Role::PlainWord { parameter }))
    }

    // Kept: `bytes` and `span` are given one by one, here and below, since a struct of both would be taken apart again for the span that a value keeps and the text that its switches are.
    fn switch_word<R: Register>(
        &mut self,
        signature: &Signature<'_, R>,
        bytes: &[u8],
        span: Span,
    ) -> Result<Option<Role>, Refusal>
        requires dashed { is_dashed (text_at bytes.now span) ≡ true }
        requires room { MayGrow (length (text_at bytes.now span)) self.old }
        ensures next { (roles : List WordRole) → next_of (parameters_of R.Register.signatures signature.now) bytes.now roles result self.new ≡ switch_step (parameters_of R.Register.signatures signature.now) (state_of (parameters_of R.Register.signatures signature.now) bytes.now self.old roles) (text_at bytes.now span) }
        ensures grows { Grows (length (text_at bytes.now span)) self.old self.new result }
    {
        self.waiting = apply_word(signature, bytes, span, self.words, &mut self.values)?;
        self.words += 1;
        Ok(Some(Role::SwitchWord))
    }

    // A word for which no switch waits.
    fn free_word<R: Register>(
        &mut self,
        signature: &Signature<'_, R>,
        options: bool,
        bytes: &[u8],
        span: Span,
    ) -> Result<Option<Role>, Refusal>
        requires options { options ≡ any_option (parameters_of R.Register.signatures signature.now) }
        requires room { MayGrow (suc (length (text_at bytes.now span))) self.old }
        ensures next { (roles : List WordRole) → next_of (parameters_of R.Register.signatures signature.now) bytes.now roles result self.new ≡ free_step (parameters_of R.Register.signatures signature.now) (state_of (parameters_of R.Register.signatures signature.now) bytes.now self.old roles) (text_at bytes.now span) }
        ensures grows { Grows (suc (length (text_at bytes.now span))) self.old self.new result }
    {
        if self.ended || !options {
            return self.plain_word(signature, span);
        }
        let text = text_at(bytes, span);
        if is_end_mark(text) {
            return self.end_mark();
        }
        if is_dashed(text) {
            return self.switch_word(signature, bytes, span);
        }
        self.plain_word(signature, span)
    }

    // The next word: its role, or none if the order ends before it. Whether the recipe has options is told, since it is the same for all words of an order.
    pub(crate) fn read_word<R: Register>(
        &mut self,
        signature: &Signature<'_, R>,
        options: bool,
        bytes: &[u8],
        span: Span,
    ) -> Result<Option<Role>, Refusal>
        requires options { options ≡ any_option (parameters_of R.Register.signatures signature.now) }
        requires room { MayGrow (suc (length (text_at bytes.now span))) self.old }
        ensures next { (roles : List WordRole) → next_of (parameters_of R.Register.signatures signature.now) bytes.now roles result self.new ≡ step_of (parameters_of R.Register.signatures signature.now) (state_of (parameters_of R.Register.signatures signature.now) bytes.now self.old roles) (text_at bytes.now span) }
        ensures grows { Grows (suc (length (text_at bytes.now span))) self.old self.new result }
    {
        match self.awaited(signature) {
            Some(awaited) => self.value_word(span, awaited),
            None => self.free_word(signature, options, bytes, span),
        }
    }
}
