// Ordered tables: rows that ascend by their keys, and one search for every kind of row.
#![tactic(auto)]

pub mod keyed;
pub mod order;
pub mod search;
