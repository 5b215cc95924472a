// The checks that go over a whole tree, after all its records have been read.
#![tactic(auto)]

pub mod derive;
pub mod filled;
mod insertion;
mod listing;
pub mod modules;
