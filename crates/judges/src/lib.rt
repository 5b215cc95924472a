// The judges over the pattern rows of a tree.
#![tactic(auto)]

ghost use Rattle.judges.specs.Patterns.{JudgesOfTree};

pub mod chosen;
pub mod gauges;
pub mod texts;

// The judges over a tree's rows mean what the tree says.
pub fn judges_of_tree_stand() -> u8
    ensures { JudgesOfTree }
{
    0
}
