// Bit maps.
ghost use Rattle.std.specs.Prelude.{◌≡◌};
ghost use Rattle.format.specs.Fields.{bit};

use crate::numbers::Number;

// Whether a bit of a map is set; bit 0 is the lowest.
pub fn has<N: Number>(map: N, place: u16) -> bool
    ensures { result ≡ bit place (N.value map) }
{
    let bits = map.wide();
    place < 32 && (bits >> place) % 2 == 1
}
