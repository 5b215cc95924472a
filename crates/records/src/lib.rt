// The records of a tree image, read into rows.
#![tactic(auto)]

ghost use Rattle.format.specs.Encoded.{Encoded};
ghost use Rattle.format.specs.Sure.{Sure};
ghost use Rattle.records.specs.Records.{tree as tree_format};

pub mod counts;
mod head;
mod modules;
mod names;
mod numbered;
mod parameters;
mod patterns;
mod recipes;
mod rows;
pub mod whole;

// At every place of every image stands one tree or one fault at most, and never both.
pub fn tree_stands() -> u8
    ensures { Sure tree_format }
{
    0
}

// An image holds one tree from its first byte to its last exactly if it is that tree, written.
pub fn encoding_stands() -> u8
    ensures { Encoded tree_format }
{
    0
}
