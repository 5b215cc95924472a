// Keys, and rows that are found by one.
ghost use Rattle.std.specs.Prelude.{◌≡◌, ℕ, List};
ghost use Rattle.table.specs.Order.{ranked};

use std::cmp::Ordering;

// A key: parts in order, and keys stand in the order of their parts, a prefix first.
pub trait Parts: Ord + Copy {
    ghost parts: { Self → List ℕ };

    // Which of two keys comes first. A key may say it with fewer steps than its order has.
    fn compare(&self, other: &Self) -> Ordering
        ensures { result ≡ ranked (parts self.now) (parts other.now) }
    {
        self.cmp(other)
    }

    ghost in_order: { (a b : Self) → Self.cmp a b ≡ ranked (parts a) (parts b) };
}

// A row whose key is a list of parts; its texts lie in an image.
pub trait Ranked {
    ghost keyed: { List ℕ → Self → List ℕ };
}

// A row with the key that it is found by.
pub trait Keyed<'k>: Ranked {
    type Key: Parts;

    fn key(&self, image: &'k [u8]) -> Self::Key
        ensures { Self.Key.Parts.parts result ≡ Self.keyed image.now self.now };
}
