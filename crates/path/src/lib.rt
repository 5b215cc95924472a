// The path of an order: from its first words to a recipe.
#![tactic(auto)]

ghost use Rattle.path.specs.Laws.{PathLaws};
ghost use Rattle.path.specs.Path.{PathsStand};

pub mod found;
mod name;
pub mod path;
mod pieces;
pub mod walk;

// Words from an order's first on have one path or one first fault.
pub fn paths_stand() -> u8
    ensures { PathsStand }
{
    0
}

// What follows from the rules of paths.
pub fn path_laws_stand() -> u8
    ensures { PathLaws }
{
    0
}
