// The numbers that stand for how many words a parameter takes: 1 is Plus, 2 is Star, and Singular has none.
ghost use Rattle.register.specs.ParameterNumber.{IsOfNumber};

use crate::parameter::ParameterKind;

// A number that stands for no parameter kind.
#[derive(Clone, Copy, PartialEq, Eq)]
pub struct NoParameterKind;

impl TryFrom<u8> for ParameterKind {
    type Error = NoParameterKind;

    ghost try_from_gives = { IsOfNumber };

    fn try_from(number: u8) -> Result<ParameterKind, NoParameterKind> {
        match number {
            1 => Ok(ParameterKind::Plus),
            2 => Ok(ParameterKind::Star),
            _ => Err(NoParameterKind),
        }
    }
}
