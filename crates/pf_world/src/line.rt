//! A command of a script, with the number of its line.
use pf_script::Command;

/// A line of a script that says something.
#[derive(Debug, Drop)]
pub struct Line {
    pub number: u32,
    pub command: Command,
}
