// The tree of modules, names, recipes, parameters and patterns, as rows over an image's bytes.
#![tactic(auto)]

pub mod keys;
pub mod rows;
