// One of the judges over a tree's patterns, as a run was told.
ghost use Rattle.judges.specs.Chosen.{chosen_accepts};

use crate::gauges::GaugeJudge;
use crate::texts::TextsJudge;
use judge::Judge;
use judge::either::Either;

// Kept: an enum, since a function may not make a judge of `dyn` type and hand it out, and the three are all there are.
#[derive(Clone, Copy)]
pub enum Chosen<'a> {
    Texts(TextsJudge<'a>),
    Gauge(GaugeJudge<'a>),
    Both(TextsJudge<'a>, GaugeJudge<'a>),
}

impl<'a> Judge for Chosen<'a> {
    ghost accepts = { chosen_accepts };

    fn belongs(&self, pattern: u8, text: &[u8]) -> bool {
        match *self {
            Chosen::Texts(judge) => judge.belongs(pattern, text),
            Chosen::Gauge(judge) => judge.belongs(pattern, text),
            Chosen::Both(first, second) => Either { first, second }.belongs(pattern, text),
        }
    }
}
