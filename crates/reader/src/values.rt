// The values of an order so far.
ghost use Rattle.std.specs.Prelude.{◌≡◌, ◌<◌, ◌≤◌, [], ◌∷◌, ◌++◌, length};
ghost use Rattle.reader.specs.Meaning.{any_to};

use crate::source::{Source, ValueRow};
use arrayvec::ArrayVec;

// In sequence; a table of fixed size holds them.
#[derive(Drop)]
pub struct Values {
    pub(crate) rows: ArrayVec<ValueRow, 1024>,
}

impl Values {
    pub fn new() -> Values
        ensures { result.rows.items ≡ [] }
    {
        Values {
            rows: ArrayVec::new(),
        }
    }

    // The values so far.
    pub fn rows(&self) -> &[ValueRow]
        ensures value { result.now ≡ self.now.rows.items }
        ensures few { length result.now ≤ 1024 }
    {
        self.rows.as_slice()
    }

    // A value of a word, behind those so far.
    pub(crate) fn push(&mut self, parameter: usize, source: Source, word: usize)
        requires { length self.old.rows.items < 1024 }
        ensures { self.new.rows.items ≡ self.old.rows.items ++ record { parameter = parameter; source = source; word = word } ∷ [] }
    {
        self.rows.push(ValueRow {
            parameter,
            source,
            word,
        });
    }

    // Whether a value is given to the parameter at a place.
    pub fn has(&self, parameter: usize) -> bool
        ensures { result ≡ any_to parameter self.now.rows.items }
    {
        self.rows.iter().any(|row| row.parameter == parameter)
    }
}
