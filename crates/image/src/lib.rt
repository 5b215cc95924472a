// The tree image: its check, the tables that only the check fills, and what stands over them.
#![tactic(auto)]

pub mod check;
pub mod load;
pub mod tables;
