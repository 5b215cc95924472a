// The register that needs no image.
ghost use Rattle.std.specs.Prelude.{◌≡◌};
ghost use Rattle.register.specs.Bare.{bare_names, bare_recipe, bare_signatures};
ghost use Rattle.register.specs.BareLaws.{bare_few, bare_apart};

use crate::kind::Kind;
use crate::parameter::{Parameter, ParameterKind};
use crate::register::Register;

// One module with two recipes: `hold`, which takes nothing, and its default `status`, which takes any number of words.
#[derive(Clone, Copy)]
pub struct Bare;

const HOLD: u16 = 0;

const STATUS: u16 = 1;

// The parameter of `status`.
const WORDS: Parameter = Parameter {
    has_default: false,
    flag: false,
    multiple: false,
    value: false,
    kind: ParameterKind::Star,
    has_long: false,
    letter: None,
    min: None,
    max: None,
    pattern: None,
};

fn recipe_named(name: &[u8]) -> Option<u16>
    ensures { result ≡ bare_recipe name.now }
{
    match name {
        b"hold" => Some(HOLD),
        b"status" => Some(STATUS),
        _ => None,
    }
}

impl Register for Bare {
    ghost names = { λ _. bare_names };

    ghost signatures = { λ _. bare_signatures };

    ghost few = { λ _. bare_few };

    ghost apart = { λ _. bare_apart };

    fn root(&self) -> u16 {
        0
    }

    fn modules(&self) -> u16 {
        1
    }

    fn find(&self, module: u16, kind: Kind, name: &[u8]) -> Option<u16> {
        match kind {
            Kind::Recipe if module == 0 => recipe_named(name),
            _ => None,
        }
    }

    fn default(&self, module: u16) -> Option<u16> {
        (module == 0).then_some(STATUS)
    }

    fn has_recipes(&self, module: u16) -> bool {
        module == 0
    }

    fn count(&self, recipe: u16) -> usize {
        if recipe == STATUS { 1 } else { 0 }
    }

    fn parameter(&self, recipe: u16, place: usize) -> Option<Parameter> {
        (recipe == STATUS && place == 0).then_some(WORDS)
    }

    fn long(&self, _recipe: u16, _name: &[u8]) -> Option<usize> {
        None
    }

    fn letter(&self, _recipe: u16, _code: u32) -> Option<usize> {
        None
    }

    fn default_text(&self, _recipe: u16, _place: usize) -> Option<&[u8]> {
        None
    }

    fn long_text(&self, _recipe: u16, _place: usize) -> Option<&[u8]> {
        None
    }
}
