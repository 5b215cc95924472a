// The words of an order so far.
ghost use Rattle.std.specs.Prelude.{◌≤◌};

use crate::values::Values;
use crate::waiting::Waiting;

mod counts;
mod scan;
mod told;
pub mod words;

// How many words the order has, whether an end mark was among them, how many were plain, whom the next word is for, and the values that they give.
#[derive(Drop)]
pub struct Invocation {
    words: usize,
    ended: bool,
    plains: usize,
    waiting: Option<Waiting>,
    values: Values,
    ghost ok: { plains ≤ words },
}
