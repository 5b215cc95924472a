// The reader: the words of a line as orders.
#![tactic(auto)]

pub mod awaited;
pub mod called;
pub mod counts;
pub mod invocation;
pub mod invocation_parser;
mod letters;
pub mod read_order;
pub mod signature;
pub mod source;
pub mod switch;
mod switch_word;
pub mod taker;
pub mod values;
pub mod waiting;
pub mod word;
