// The tables in which the reading of a line is kept.
#![tactic(auto)]

pub mod fill;
pub mod order_row;
mod put;
pub mod read;
pub mod tables;
pub mod view;
