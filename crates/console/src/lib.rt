// The console: it keeps the reading of one line, and hands out its orders one by one.
#![tactic(auto)]

pub mod admitted;
pub mod console;
pub mod issued;
pub mod law;
pub mod status;
