// The script that the program reads, and the text of its answers.
#![tactic(auto)]

pub mod answer;
pub mod call;
pub mod console_call;
pub mod hex;
pub mod reading_call;
pub mod tally;
