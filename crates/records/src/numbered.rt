// Values that stand in an image as their numbers.
ghost use Rattle.records.specs.Numbered.{ReadsAs};

use format::cursor::Cursor;
use refusal::Refusal;

// The value whose number stands here.
pub(crate) fn read_as<V: Copy + TryFrom<u8>>(cursor: &mut Cursor) -> Result<V, Refusal>
where
    <V as TryFrom<u8>>::Error: Drop,
    ensures { ReadsAs V.try_from_gives cursor.old result cursor.new }
{
    let at = cursor.at;
    let number = cursor.read_number::<u8>()?;
    V::try_from(number).or(Err(Refusal::OutOfRange { at }))
}
