// The parser of invocations of the command runner just, as functions on values beside its sources, and that it answers as the rules of reading do.
#![tactic(auto)]

ghost use Rattle.just.specs.Examples.{ExamplesStand};
ghost use Rattle.just.specs.Stands.{JustStands};

// Over every lawful image, just's parser gives the orders and refusals that the rules give.
pub fn just_stands() -> u8
    ensures { JustStands }
{
    0
}

// The parser, computed on eight lines over the example tree.
pub fn examples_stand() -> u8
    ensures { ExamplesStand }
{
    0
}
