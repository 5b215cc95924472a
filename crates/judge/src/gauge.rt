ghost use Rattle.std.specs.Prelude.{◌≡◌, Decides};
ghost use Rattle.judge.specs.Gauge.{OnGauge, on_gauge};

use crate::metres::millimetres_of;
use crate::rounding::centimetres;

// Whether a text is a reading in metres that, in centimetres, lies from low to high.
pub fn is_on_gauge(low: u32, high: u32, text: &[u8]) -> bool
    ensures value { result ≡ on_gauge low high text.now }
    ensures means { Decides result (OnGauge low high text.now) }
{
    millimetres_of(text).is_some_and(|millimetres| (low..=high).contains(&centimetres(millimetres)))
}
