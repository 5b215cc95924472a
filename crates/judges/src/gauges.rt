ghost use Rattle.std.specs.Prelude.{◌≡◌, [], map};
ghost use Rattle.std.specs.List.{slice_get};
ghost use Rattle.std.specs.Option.{option_map};
ghost use Rattle.tree.specs.Rows.{pattern_at, range_at};
ghost use Rattle.judges.specs.Patterns.{range_of, gauges_over};

use judge::Judge;
use judge::gauge::is_on_gauge;
use tree::rows::{Gauge, PatternRow};

// Accepts the readings that lie on the gauge of a pattern.
#[derive(Clone, Copy)]
pub struct GaugeJudge<'a> {
    pub patterns: &'a [PatternRow],
}

// The gauge of a pattern: none without such a pattern, or without that field.
fn gauge_of(patterns: &[PatternRow], pattern: u8) -> Option<Gauge>
    ensures { option_map range_at result ≡ range_of (slice_get (map (pattern_at []) patterns.now) pattern) }
{
    patterns.get(pattern as usize)?.gauge
}

impl<'a> Judge for GaugeJudge<'a> {
    ghost accepts = { λ j. gauges_over j.patterns.now };

    fn belongs(&self, pattern: u8, text: &[u8]) -> bool {
        gauge_of(self.patterns, pattern).is_some_and(|gauge| is_on_gauge(
            gauge.low, gauge.high, text,
        ))
    }
}
