//! A volume with its hosts, and how the lines of a script run over them.
//!
//! Each line of the script ends with one line of the report; before it stands a line for each read that it answered.
#![tactic(auto)]

mod anchoring;
mod disks;
mod kind;
mod laws;
mod line;
mod lines;
mod living;
mod making;
mod mounting;
mod moving;
mod showing;
mod world;

pub use line::Line;
pub use world::World;
