// Texts: spans of bytes, UTF-8, identifiers.
#![tactic(auto)]

pub mod dashes;
pub mod identifier;
mod lengths;
pub mod line;
pub mod part;
pub mod pieces;
pub mod span;
pub mod utf8;
