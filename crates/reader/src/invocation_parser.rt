// One order: its path, its words and their counts.
ghost use Rattle.std.specs.Prelude.{◌≡◌};
ghost use Rattle.reader.specs.Counts.{fault_of};
ghost use Rattle.reader.specs.Orders.{default_fault};

use crate::invocation::Invocation;
use crate::signature::Signature;
use arrayvec::ArrayVec;
use path::path::Path;
use reading::role::Role;
use refusal::Refusal;
use register::register::Register;

mod order;
pub mod orders;

// A default's recipe may have no required parameter.
fn check_can_be_default_recipe<R: Register>(register: &R, path: Path) -> Result<(), Refusal>
    ensures { fault_of result ≡ default_fault (R.Register.signatures register.now) path }
{
    if !path.default {
        return Ok(());
    }
    let signature = Signature {
        register,
        recipe: path.recipe,
    };
    let required = signature.required_count();
    if 0 < required {
        return Err(Refusal::DefaultRecipeRequiresArguments { word: 0, required });
    }
    Ok(())
}

// The order that is being read, and the roles of its words behind the path. A parser serves line after line, and keeps nothing from one to the next.
#[derive(Drop)]
pub struct InvocationParser {
    order: Invocation,
    roles: ArrayVec<Role, 128>,
}

impl InvocationParser {
    pub fn new() -> InvocationParser {
        InvocationParser {
            order: Invocation::new(0),
            roles: ArrayVec::new(),
        }
    }
}
