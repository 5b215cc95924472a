// Reading an image by the description of its format, field by field.
#![tactic(auto)]

ghost use Rattle.format.specs.Sure.{FieldsSure};

pub mod cursor;
pub mod maps;
pub mod numbers;
pub mod rows;
pub mod texts;

// At every place of every image a field has one value or one fault at most.
pub fn fields_stand() -> u8
    ensures { FieldsSure }
{
    0
}
