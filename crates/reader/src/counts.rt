// The counts of an order: what is missing, and what its values keep.
ghost use Rattle.std.specs.Prelude.{◌≡◌, ℕ, List};
ghost use Rattle.register.specs.Meaning.{ParameterMeaning};
ghost use Rattle.register.specs.Parameters.{without_texts};
ghost use Rattle.reading.specs.Reading.{at_least, at_most, group};
ghost use Rattle.reading.specs.Model.{first_of, check_option, check_plain, check_pattern, check_sound, any_missing, tally};
ghost use Rattle.reader.specs.Signatures.{parameters_of};
ghost use Rattle.reader.specs.Meaning.{source_text, values_of};
ghost use Rattle.reader.specs.Counts.{count_to, first_rejected, fault_of, missing_row};

use crate::called::Called;
use crate::signature::{Signature, is_option, may_be_empty};
use crate::source::{Source, ValueRow};
use crate::values::Values;
use judge::Judge;
use refusal::Refusal;
use register::register::Register;
use text::span::texts::text_at;

// The text of a value.
pub fn source_text<'a>(bytes: &'a [u8], source: Source) -> &'a [u8]
    ensures { result.now ≡ source_text bytes.now source }
{
    match source {
        Source::Part(span) => text_at(bytes, span),
        Source::True => b"true",
    }
}

// How many rows give to the parameter at a place.
fn count_to(rows: &[ValueRow], parameter: usize) -> usize
    ensures { result ≡ count_to parameter rows.now }
{
    rows.iter().filter(|row| row.parameter == parameter).count()
}

// The word of the first value of a parameter that its pattern does not accept.
fn first_rejected<J: Judge>(
    judge: &J,
    pattern: u8,
    bytes: &[u8],
    rows: &[ValueRow],
    parameter: usize,
) -> Option<usize>
    ensures { result ≡ first_rejected (J.Judge.accepts judge.now pattern) bytes.now parameter rows.now }
{
    rows.iter()
        .find(|row| {
            row.parameter == parameter && !judge.belongs(pattern, source_text(bytes, row.source))
        })
        .map(|row| row.word)
}

fn at_least(min: Option<u32>, found: usize) -> bool
    ensures { result ≡ at_least min found }
{
    min.is_none_or(|least| least as usize <= found)
}

fn at_most(max: Option<u32>, found: usize) -> bool
    ensures { result ≡ at_most max found }
{
    max.is_none_or(|most| found <= most as usize)
}

impl Values {
    // Whether a parameter has no value and needs one.
    fn is_missing(&self, called: Called) -> bool
        ensures { result ≡ missing_row called.place called.parameter self.now.rows.items }
    {
        !self.has(called.place) && !may_be_empty(called.parameter)
    }

    // The first value of a parameter that its pattern does not accept.
    fn check_pattern<J: Judge>(
        &self,
        judge: &J,
        bytes: &[u8],
        place: usize,
        pattern: Option<u8>,
    ) -> Result<(), Refusal>
        ensures { fault_of result ≡ check_pattern (J.Judge.accepts judge.now) place pattern (group place (values_of bytes.now self.now)) }
    {
        let Some(pattern) = pattern else {
            return Ok(());
        };
        match first_rejected(judge, pattern, bytes, self.rows(), place) {
            Some(word) => Err(Refusal::ArgumentPatternMismatch {
                word,
                parameter: place,
            }),
            None => Ok(()),
        }
    }

    // The values of one parameter: how many there are, and its pattern.
    fn check_group<J: Judge>(&self, judge: &J, bytes: &[u8], called: Called) -> Result<(), Refusal>
        ensures { (m : ParameterMeaning) → without_texts m ≡ called.parameter → fault_of result ≡ check_sound (J.Judge.accepts judge.now) (values_of bytes.now self.now) called.place m }
    {
        let Called { place, parameter } = called;
        if parameter.value || !self.has(place) {
            return Ok(());
        }
        let found = count_to(self.rows(), place);
        if !at_least(parameter.min, found) {
            return Err(Refusal::ArgumentTooFewValues {
                word: 0,
                parameter: place,
                found,
            });
        }
        if !at_most(parameter.max, found) {
            return Err(Refusal::ArgumentTooManyValues {
                word: 0,
                parameter: place,
                found,
            });
        }
        self.check_pattern(judge, bytes, place, parameter.pattern)
    }

    // The first option that is missing.
    fn check_options<R: Register>(&self, signature: &Signature<'_, R>) -> Result<(), Refusal>
        ensures { (bytes : List ℕ) → fault_of result ≡ first_of (check_option (values_of bytes self.now)) 0 (parameters_of R.Register.signatures signature.now) }
    {
        let missing = signature.parameters().find(|called| is_option(called.parameter)
            && self.is_missing(*called));
        match missing {
            Some(called) => Err(Refusal::MissingOption {
                word: 0,
                parameter: called.place,
            }),
            None => Ok(()),
        }
    }

    fn any_missing<R: Register>(&self, signature: &Signature<'_, R>) -> bool
        ensures { (bytes : List ℕ) → result ≡ any_missing (values_of bytes self.now) 0 (parameters_of R.Register.signatures signature.now) }
    {
        signature.parameters().any(|called| self.is_missing(called))
    }

    // Whether plain words are missing, where so many were found.
    fn check_plain<R: Register>(
        &self,
        signature: &Signature<'_, R>,
        found: usize,
    ) -> Result<(), Refusal>
        ensures { (bytes : List ℕ) → fault_of result ≡ check_plain (values_of bytes self.now) found (parameters_of R.Register.signatures signature.now) }
    {
        if self.any_missing(signature) {
            return Err(Refusal::PositionalArgumentCountMismatch {
                word: 0,
                found,
                min: signature.required_plain(),
            });
        }
        Ok(())
    }

    // The first parameter whose values do not keep its rules. Without values there is none.
    fn check_values<R: Register, J: Judge>(
        &self,
        signature: &Signature<'_, R>,
        judge: &J,
        bytes: &[u8],
    ) -> Result<(), Refusal>
        ensures { fault_of result ≡ first_of (check_sound (J.Judge.accepts judge.now) (values_of bytes.now self.now)) 0 (parameters_of R.Register.signatures signature.now) }
    {
        if self.rows().is_empty() {
            return Ok(());
        }
        for called in signature.parameters() {
            self.check_group(judge, bytes, called)?;
        }
        Ok(())
    }

    // The counts of an order with so many plain words.
    pub fn check<R: Register, J: Judge>(
        &self,
        signature: &Signature<'_, R>,
        judge: &J,
        bytes: &[u8],
        found: usize,
    ) -> Result<(), Refusal>
        ensures { fault_of result ≡ tally (parameters_of R.Register.signatures signature.now) (J.Judge.accepts judge.now) (values_of bytes.now self.now) found }
    {
        self.check_options(signature)?;
        self.check_plain(signature, found)?;
        self.check_values(signature, judge, bytes)
    }
}
