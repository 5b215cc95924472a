// Registers: where names lead and what recipes take, by their meaning.
#![tactic(auto)]

pub mod bare;
pub mod kind;
pub mod mount;
pub mod parameter;
pub mod parameter_number;
pub mod register;
