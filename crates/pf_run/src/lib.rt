//! The top call `run`: from the bytes of a script to the bytes of its report.
#![tactic(auto)]

mod generate;
mod lines;
mod list;
mod script;
mod top;

pub use top::run;
