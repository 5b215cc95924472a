// A recipe of a register, and what its parameters ask for.
ghost use Rattle.std.specs.Prelude.{◌≡◌, ◌≤◌, ℕ, Bool, not, ◌&&◌, Some};
ghost use Rattle.std.specs.Iterator.{YieldsFirst, item_count};
ghost use Rattle.register.specs.Parameters.{long_place, letter_place, without_texts};
ghost use Rattle.register.specs.declared.parameter.Parameter.{Parameter as BareParameter};
ghost use Rattle.reading.specs.Signature.{any_option, is_star, is_variadic, required_count, required_plain, counted};
ghost use Rattle.reading.specs.Switches.{called_at};
ghost use Rattle.reading.specs.Model.{taker};
ghost use Rattle.reader.specs.Bare.{bare_option, bare_required, bare_may_be_empty};
ghost use Rattle.reader.specs.Answers.{Calls};
ghost use Rattle.reader.specs.Signatures.{parameters_of, left_of, called_from};

use crate::called::Called;
use register::parameter::{Parameter, ParameterKind};
use register::register::Register;

// An option has a long name or a letter.
#[inline]
pub fn is_option(parameter: Parameter) -> bool
    ensures { result ≡ bare_option parameter }
{
    parameter.has_long || parameter.letter.is_some()
}

// A parameter that plain words go to.
#[inline]
fn is_plain(parameter: Parameter) -> bool
    ensures { result ≡ not (bare_option parameter) }
{
    !is_option(parameter)
}

pub fn is_variadic(kind: ParameterKind) -> bool
    ensures { result ≡ is_variadic kind }
{
    matches!(kind, ParameterKind::Plus | ParameterKind::Star)
}

fn is_star(kind: ParameterKind) -> bool
    ensures { result ≡ is_star kind }
{
    matches!(kind, ParameterKind::Star)
}

// Required: no default, no flag, and no Star unless it wants a value.
pub fn is_required(parameter: Parameter) -> bool
    ensures { result ≡ bare_required parameter }
{
    !parameter.has_default
        && !parameter.flag
        && (!is_star(parameter.kind) || parameter.min.is_some_and(|least| 0 < least))
}

// Required, and no option.
fn is_required_plain(parameter: Parameter) -> bool
    ensures { result ≡ (bare_required parameter && not (bare_option parameter)) }
{
    is_required(parameter) && is_plain(parameter)
}

// What may stay without a value.
pub fn may_be_empty(parameter: Parameter) -> bool
    ensures { result ≡ bare_may_be_empty parameter }
{
    parameter.has_default || parameter.flag || is_star(parameter.kind)
}

// A recipe, in its register.
#[derive(Drop)]
pub struct Signature<'r, R> {
    pub register: &'r R,
    pub recipe: u16,
}

// The parameters of a recipe from a place on.
#[derive(Drop)]
pub(crate) struct Parameters<'r, R> {
    signature: Signature<'r, R>,
    place: usize,
}

impl<'r, R: Register> Iterator for Parameters<'r, R> {
    type Item = Called;

    ghost next_gives = { YieldsFirst (left_of R.Register.signatures) };

    ghost remaining = { item_count (left_of R.Register.signatures) };

    fn next(&mut self) -> Option<Called> {
        let place = self.place;
        let parameter = self
            .signature
            .register
            .parameter(self.signature.recipe, place)?;
        self.place += 1;
        Some(Called { place, parameter })
    }
}

impl<'r, R: Register> Signature<'r, R> {
    // Its parameters, in sequence.
    pub(crate) fn parameters(&self) -> Parameters<'r, R>
        ensures { left_of R.Register.signatures result ≡ called_from 0 (parameters_of R.Register.signatures self.now) }
    {
        Parameters {
            signature: Signature {
                register: self.register,
                recipe: self.recipe,
            },
            place: 0,
        }
    }

    // The parameter at a place.
    pub fn called(&self, place: usize) -> Option<Called>
        ensures { Calls (parameters_of R.Register.signatures self.now) (called_at (parameters_of R.Register.signatures self.now) (Some place)) result }
    {
        let parameter = self.register.parameter(self.recipe, place)?;
        Some(Called { place, parameter })
    }

    // The parameter with this long name.
    pub(crate) fn long(&self, name: &[u8]) -> Option<Called>
        ensures { Calls (parameters_of R.Register.signatures self.now) (called_at (parameters_of R.Register.signatures self.now) (long_place (parameters_of R.Register.signatures self.now) name.now)) result }
    {
        self.called(self.register.long(self.recipe, name)?)
    }

    // The parameter with this letter.
    pub(crate) fn letter(&self, code: u32) -> Option<Called>
        ensures { Calls (parameters_of R.Register.signatures self.now) (called_at (parameters_of R.Register.signatures self.now) (letter_place (parameters_of R.Register.signatures self.now) code)) result }
    {
        self.called(self.register.letter(self.recipe, code)?)
    }

    // Whether the recipe has an option.
    pub fn has_options(&self) -> bool
        ensures { result ≡ any_option (parameters_of R.Register.signatures self.now) }
    {
        self.parameters().any(|called| is_option(called.parameter))
    }

    // The place of the parameter that the plain word behind so many others goes to.
    pub fn plain_place(&self, before: usize) -> Option<usize>
        ensures { result ≡ taker (parameters_of R.Register.signatures self.now) before }
    {
        // Kept: a count in a loop, since of the chain `filter(is_plain).enumerate().find(..)` no proof was found of what the filter's closure answers.
        let mut left = before;
        for called in self.parameters() {
            if is_plain(called.parameter) {
                if left == 0 || is_variadic(called.parameter.kind) {
                    return Some(called.place);
                }
                left -= 1;
            }
        }
        None
    }

    // How many parameters pass a test.
    fn count<F: Fn(Parameter) -> bool>(&self, test: F) -> usize
        requires { F.IsAlwaysCallable test }
        ensures { (passes : BareParameter → Bool) → ((p : BareParameter) (b : Bool) → F.post test p b → b ≡ passes p) → result ≡ counted (λ m. passes (without_texts m)) (parameters_of R.Register.signatures self.now) }
    {
        self.parameters()
            .filter(|called| test(called.parameter))
            .count()
    }

    // How many parameters are required.
    pub fn required_count(&self) -> usize
        ensures { result ≡ required_count (parameters_of R.Register.signatures self.now) }
    {
        self.count(is_required)
    }

    // How many required parameters are no options.
    pub fn required_plain(&self) -> usize
        ensures { result ≡ required_plain (parameters_of R.Register.signatures self.now) }
    {
        self.count(is_required_plain)
    }
}
