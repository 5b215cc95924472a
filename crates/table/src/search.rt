// Tables of rows that ascend, and the search in them.
ghost use Rattle.std.specs.Prelude.{◌≡◌};
ghost use Rattle.std.specs.Option.{option_map};
ghost use Rattle.table.specs.Order.{ranked, Ascending, Finds, FindsRow, Searched};

use crate::keyed::{Keyed, Parts, Ranked};
use std::alloc::AllocError;
use std::cmp::Ordering;

// Rows that ascend by their keys, over the image in which their texts lie.
pub struct Table<'k, 'r, T: Ranked> {
    pub image: &'k [u8],
    pub rows: &'r [T],
    ghost ascends: { Ascending (T.keyed image.now) rows.now },
}

// Kept: by hand, since no derive goes over a ghost field; the rows need not be `Copy`.
impl<'k, 'r, T: Ranked> Clone for Table<'k, 'r, T> {
    ghost is_clone = { λ x y. y ≡ x };

    ghost is_infallible = { λ _. Unit {0} };

    fn clone(&self) -> Result<Table<'k, 'r, T>, AllocError> {
        Ok(*self)
    }
}

impl<'k, 'r, T: Ranked> Copy for Table<'k, 'r, T> {}

impl<'k, 'r, K: Parts, T: Keyed<'k, Key = K>> Table<'k, 'r, T> {
    // How a row's key stands to a key.
    fn compare(&self, row: &T, key: &K) -> Ordering
        ensures { result ≡ ranked (T.keyed self.now.image.now row.now) (K.parts key.now) }
    {
        row.key(self.image).compare(key)
    }

    // The place of the row with the key, or else the place where such a row would stand.
    // Kept: a loop by hand, since the library's binary search goes on where it has met the key, and looks at one row more.
    pub fn search(&self, key: K) -> Result<usize, usize>
        ensures { Searched (T.keyed self.now.image.now) self.now.rows.now (K.parts key) result }
    {
        let mut low = 0;
        let mut high = self.rows.len();
        while low < high {
            let mid = low + (high - low) / 2;
            let here = &self.rows[mid];
            match self.compare(here, &key) {
                Ordering::Less => low = mid + 1,
                Ordering::Equal => return Ok(mid),
                Ordering::Greater => high = mid,
            }
        }
        Err(low)
    }

    // What `search` answers, looked for from the last row on: for a key that stands near the end.
    // Kept: a loop by hand, since a new row mostly goes behind the last one, where the library's binary search still halves all rows.
    pub fn search_back(&self, key: K) -> Result<usize, usize>
        ensures { Searched (T.keyed self.now.image.now) self.now.rows.now (K.parts key) result }
    {
        let mut place = self.rows.len();
        while place > 0 {
            let before = &self.rows[place - 1];
            match self.compare(before, &key) {
                Ordering::Less => return Err(place),
                Ordering::Equal => return Ok(place - 1),
                Ordering::Greater => place -= 1,
            }
        }
        Err(0)
    }

    // The place of the row with the key.
    pub fn place(&self, key: K) -> Option<usize>
        ensures { Finds (T.keyed self.now.image.now) self.now.rows.now (K.parts key) result }
    {
        self.search(key).ok()
    }

    // The row with the key.
    pub fn find(&self, key: K) -> Option<&'r T>
        ensures { FindsRow (T.keyed self.now.image.now) self.now.rows.now (K.parts key) (option_map (λ x. x.now) result) }
    {
        self.rows.get(self.place(key)?)
    }
}
