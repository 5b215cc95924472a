// A layer that makes a given module the root.
ghost use Rattle.register.specs.Mount.{mounted};

use crate::kind::Kind;
use crate::parameter::Parameter;
use crate::register::Register;

// A register with another root; a number that is no module alters nothing.
#[derive(Clone, Copy, Drop)]
pub struct Mount<R> {
    pub below: R,
    pub module: u16,
}

impl<R: Register> Register for Mount<R> {
    ghost names = { λ m. mounted m.«module» (R.Register.names m.below) };

    ghost signatures = { λ m. R.Register.signatures m.below };

    ghost few = { λ m. R.Register.few m.below };

    ghost apart = { λ m. R.Register.apart m.below };

    fn root(&self) -> u16 {
        if self.module < self.below.modules() {
            self.module
        } else {
            self.below.root()
        }
    }

    fn modules(&self) -> u16 {
        self.below.modules()
    }

    fn find(&self, module: u16, kind: Kind, name: &[u8]) -> Option<u16> {
        self.below.find(module, kind, name)
    }

    fn default(&self, module: u16) -> Option<u16> {
        self.below.default(module)
    }

    fn has_recipes(&self, module: u16) -> bool {
        self.below.has_recipes(module)
    }

    fn count(&self, recipe: u16) -> usize {
        self.below.count(recipe)
    }

    fn parameter(&self, recipe: u16, place: usize) -> Option<Parameter> {
        self.below.parameter(recipe, place)
    }

    fn long(&self, recipe: u16, name: &[u8]) -> Option<usize> {
        self.below.long(recipe, name)
    }

    fn letter(&self, recipe: u16, code: u32) -> Option<usize> {
        self.below.letter(recipe, code)
    }

    fn default_text(&self, recipe: u16, place: usize) -> Option<&[u8]> {
        self.below.default_text(recipe, place)
    }

    fn long_text(&self, recipe: u16, place: usize) -> Option<&[u8]> {
        self.below.long_text(recipe, place)
    }
}
