ghost use Rattle.judge.specs.Rounding.{Rounded};

// A reading in whole centimetres: the nearest, and from the half on the higher one.
pub fn centimetres(millimetres: u32) -> u32
    ensures { Rounded millimetres result }
{
    millimetres / 10 + (millimetres % 10 + 5) / 10
}
