// The interface of a register.
ghost use Rattle.std.specs.Prelude.{◌≡◌, ℕ, ◌≤◌, length};
ghost use Rattle.std.specs.Option.{option_map};
ghost use Rattle.register.specs.Meaning.{NameMeaning, SignatureMeaning};
ghost use Rattle.register.specs.Parameters.{parameter_at, without_texts, default_at, long_at, long_place, letter_place, Apart, LookUpsStand};

use crate::kind::Kind;
use crate::parameter::Parameter;

// Kept: a recipe and a place are two arguments, since they are what is asked for, and nothing is known of them together.
// Where names lead, and what recipes take. A register alters nothing and refuses nothing: unknown numbers find nothing.
pub trait Register {
    // Where its names lead.
    ghost names: { Self → NameMeaning };

    // What its recipes take.
    ghost signatures: { Self → SignatureMeaning };

    // A recipe has at most 16 parameters.
    ghost few: { (x : Self) (recipe : ℕ) → length ((signatures x).parameters recipe) ≤ 16 };

    // No two parameters of a recipe share a long name or a letter.
    ghost apart: { (x : Self) (recipe : ℕ) → Apart ((signatures x).parameters recipe) };

    fn root(&self) -> u16
        ensures { result ≡ (names self.now).root };

    fn modules(&self) -> u16
        ensures { result ≡ (names self.now).modules };

    // What the name of this kind in the module leads to.
    fn find(&self, module: u16, kind: Kind, name: &[u8]) -> Option<u16>
        ensures { result ≡ (names self.now).find «module» kind name.now };

    // The module's default recipe.
    fn default(&self, module: u16) -> Option<u16>
        ensures { result ≡ (names self.now).default «module» };

    fn has_recipes(&self, module: u16) -> bool
        ensures { result ≡ (names self.now).has_recipes «module» };

    // How many parameters the recipe has.
    fn count(&self, recipe: u16) -> usize
        ensures { result ≡ length ((signatures self.now).parameters recipe) };

    // The recipe's parameter at the place.
    fn parameter(&self, recipe: u16, place: usize) -> Option<Parameter>
        ensures { result ≡ option_map without_texts (parameter_at ((signatures self.now).parameters recipe) place) };

    // The place of the recipe's parameter with this long name.
    fn long(&self, recipe: u16, name: &[u8]) -> Option<usize>
        ensures { result ≡ long_place ((signatures self.now).parameters recipe) name.now };

    // The place of the recipe's parameter with this letter.
    fn letter(&self, recipe: u16, code: u32) -> Option<usize>
        ensures { result ≡ letter_place ((signatures self.now).parameters recipe) code };

    // The default of the recipe's parameter at the place.
    fn default_text(&self, recipe: u16, place: usize) -> Option<&[u8]>
        ensures { option_map (λ x. x.now) result ≡ default_at ((signatures self.now).parameters recipe) place };

    // The long name of the recipe's parameter at the place.
    fn long_text(&self, recipe: u16, place: usize) -> Option<&[u8]>
        ensures { option_map (λ x. x.now) result ≡ long_at ((signatures self.now).parameters recipe) place };
}

// Look-ups by long name and letter are right.
pub fn look_ups_stand() -> u8
    ensures { LookUpsStand }
{
    0
}
