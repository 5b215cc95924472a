// One switch of a switch word.
ghost use Rattle.std.specs.Prelude.{◌≡◌, ℕ, ◌+◌, ◌<◌, ◌≤◌, ◌||◌, List, length, Option};
ghost use Rattle.std.specs.Option.{option_map};
ghost use Rattle.register.specs.Meaning.{ParameterMeaning};
ghost use Rattle.reading.specs.Signature.{is_variadic};
ghost use Rattle.reading.specs.Switches.{Called as CalledParameter};
ghost use Rattle.text.specs.Spans.{text_at};
ghost use Rattle.reader.specs.Meaning.{values_of, any_to};
ghost use Rattle.reader.specs.Answers.{Calls, full_rows, did_of, gave_row, applied};

use crate::called::Called;
use crate::signature::is_variadic;
use crate::source::Source;
use crate::values::Values;
use crate::waiting::Waiting;
use refusal::Refusal;
use register::parameter::Parameter;
use text::span::Span;

// Whether a parameter takes the text `true` alone: flags and `value` options do.
fn takes_true(parameter: Parameter) -> bool
    ensures { result ≡ (parameter.flag || parameter.value) }
{
    parameter.flag || parameter.value
}

// Whether a parameter may have several switch values.
fn holds_several(parameter: Parameter) -> bool
    ensures { result ≡ (is_variadic parameter.kind || parameter.multiple) }
{
    is_variadic(parameter.kind) || parameter.multiple
}

impl Values {
    // Whether a parameter that may have one switch value has it already.
    pub fn is_full(&self, called: Called) -> bool
        ensures { result ≡ full_rows called self.now.rows.items }
    {
        !holds_several(called.parameter) && self.has(called.place)
    }

    fn give(
        &mut self,
        word: usize,
        letter: usize,
        called: Called,
        source: Source,
    ) -> Result<Option<Waiting>, Refusal>
        requires { length self.old.rows.items < 1024 }
        ensures gives { (ps : List ParameterMeaning) (bytes : List ℕ) → did_of ps bytes result self.new ≡ gave_row bytes word letter called source self.old.rows.items }
        ensures room { length self.new.rows.items ≤ length self.old.rows.items + 1 }
    {
        if self.is_full(called) {
            return Err(Refusal::DuplicateOption { word, letter });
        }
        self.push(called.place, source, word);
        Ok(None)
    }

    // Applies a switch of this word, the last one or another, with the value that is attached to the word.
    pub(crate) fn apply(
        &mut self,
        word: usize,
        letter: usize,
        called: Option<Called>,
        value: Option<Span>,
        last: bool,
    ) -> Result<Option<Waiting>, Refusal>
        requires { length self.old.rows.items < 1024 }
        ensures applies { (ps : List ParameterMeaning) (known : Option CalledParameter) (bytes : List ℕ) → Calls ps known called → did_of ps bytes result self.new ≡ applied last word letter known (option_map (text_at bytes) value) (values_of bytes self.old) }
        ensures room { length self.new.rows.items ≤ length self.old.rows.items + 1 }
    {
        let Some(called) = called else {
            return Err(Refusal::UnknownOption { word, letter });
        };
        if takes_true(called.parameter) {
            if last && value.is_some() {
                return Err(Refusal::FlagWithValue { word, letter });
            }
            return self.give(word, letter, called, Source::True);
        }
        if !last {
            return Err(Refusal::NonFinalOptionWithValue { word, letter });
        }
        match value {
            Some(span) => self.give(word, letter, called, Source::Part(span)),
            None => Ok(Some(Waiting {
                place: called.place,
                word,
                letter,
            })),
        }
    }
}
