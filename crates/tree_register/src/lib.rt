// The register over a tree's rows.
#![tactic(auto)]

ghost use Rattle.tree_register.specs.Found.{FindsStand};

pub mod table_register;

// What is found in a tree whose numbers name records that exist does exist.
pub fn finds_stand() -> u8
    ensures { FindsStand }
{
    0
}
