//! The script that a number generates: a long run of two groups, in which servers stop, restart and are elected.
#![tactic(auto)]

mod generator;
mod line;

pub use generator::script;
