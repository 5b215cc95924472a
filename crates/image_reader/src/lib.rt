// Reading a line over a tree image.
#![tactic(auto)]

pub mod choice;
pub mod read;
