// The rules of a lawful reading, and the theorems about them.
#![tactic(auto)]

ghost use Rattle.reading.specs.Letters.{LettersStand};
ghost use Rattle.reading.specs.Shifts.{ReadingsShift};
ghost use Rattle.reading.specs.Stands.{ReadingStands, ReadingsFit, ModelStands};

pub mod role;

// The letters of a text are its characters.
pub fn letters_stand() -> u8
    ensures { LettersStand }
{
    0
}

// A line has one lawful reading or one first fault.
pub fn reading_stands() -> u8
    ensures { ReadingStands }
{
    0
}

// No line within the limits has more than 128 orders or 1,024 values.
pub fn readings_fit() -> u8
    ensures { ReadingsFit }
{
    0
}

// The executable model answers it.
pub fn model_stands() -> u8
    ensures { ModelStands }
{
    0
}

// Words counted from elsewhere change word numbers alone.
pub fn readings_shift() -> u8
    ensures { ReadingsShift }
{
    0
}
