// The keys that name, long and letter rows are found by.
ghost use Rattle.std.specs.Prelude.{refl};
ghost use Rattle.std.proofs.Common.{ap};
ghost use Rattle.std.specs.Cmp.Lexicographic.{slice_cmp};
ghost use Rattle.std.specs.Ordering.{nat_cmp, ordering_then};
ghost use Rattle.table.specs.Order.{ranked_alone};
ghost use Rattle.tree.specs.KindOrder.{kinds_in_order};
ghost use Rattle.tree.specs.Keys.{name_key, name_parts, long_key, long_parts, letter_key, letter_parts};

use crate::rows::{LetterRow, LongRow, NameRow};
use register::kind::Kind;
use std::cmp::Ordering;
use table::keyed::{Keyed, Parts, Ranked};
use text::span::texts::text_at;

// A name: its module, its kind and its text.
#[derive(Clone, Copy, PartialEq, Eq, PartialOrd, Ord)]
pub struct NameKey<'k> {
    pub module: u16,
    pub kind: Kind,
    pub text: &'k [u8],
}

// A long name: its recipe and its text.
#[derive(Clone, Copy, PartialEq, Eq, PartialOrd, Ord)]
pub struct LongKey<'k> {
    pub recipe: u16,
    pub text: &'k [u8],
}

// A letter: its recipe and its code point.
#[derive(Clone, Copy, PartialEq, Eq, PartialOrd, Ord)]
pub struct LetterKey {
    pub recipe: u16,
    pub letter: u32,
}

impl<'k> Parts for NameKey<'k> {
    ghost parts = { name_parts };

    ghost in_order = { λ a b. ap (λ o. ordering_then (nat_cmp a.«module» b.«module») (ordering_then o (slice_cmp nat_cmp a.text.now b.text.now))) (kinds_in_order a.kind b.kind) };

    // Kept: by hand, here and below, since the derived order looks at all parts of both keys; and kinds by their numbers, since the derived order of kinds reads each number from a table.
    fn compare(&self, other: &NameKey<'k>) -> Ordering {
        match self.module.cmp(&other.module) {
            Ordering::Equal => match u8::from(self.kind).cmp(&u8::from(other.kind)) {
                Ordering::Equal => self.text.cmp(&other.text),
                apart => apart,
            },
            apart => apart,
        }
    }
}

impl<'k> Parts for LongKey<'k> {
    ghost parts = { long_parts };

    ghost in_order = { λ a b. refl };

    fn compare(&self, other: &LongKey<'k>) -> Ordering {
        match self.recipe.cmp(&other.recipe) {
            Ordering::Equal => self.text.cmp(&other.text),
            apart => apart,
        }
    }
}

impl Parts for LetterKey {
    ghost parts = { letter_parts };

    ghost in_order = { λ a b. ap (ordering_then (nat_cmp a.recipe b.recipe)) (ranked_alone a.letter b.letter) };

    fn compare(&self, other: &LetterKey) -> Ordering {
        match self.recipe.cmp(&other.recipe) {
            Ordering::Equal => self.letter.cmp(&other.letter),
            apart => apart,
        }
    }
}

impl Ranked for NameRow {
    ghost keyed = { name_key };
}

impl Ranked for LongRow {
    ghost keyed = { long_key };
}

impl Ranked for LetterRow {
    ghost keyed = { letter_key };
}

impl<'k> Keyed<'k> for NameRow {
    type Key = NameKey<'k>;

    fn key(&self, image: &'k [u8]) -> NameKey<'k> {
        NameKey {
            module: self.module,
            kind: self.kind,
            text: text_at(image, self.text),
        }
    }
}

impl<'k> Keyed<'k> for LongRow {
    type Key = LongKey<'k>;

    fn key(&self, image: &'k [u8]) -> LongKey<'k> {
        LongKey {
            recipe: self.recipe,
            text: text_at(image, self.text),
        }
    }
}

impl<'k> Keyed<'k> for LetterRow {
    type Key = LetterKey;

    fn key(&self, _image: &'k [u8]) -> LetterKey {
        LetterKey {
            recipe: self.recipe,
            letter: self.letter,
        }
    }
}
