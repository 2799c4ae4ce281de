//! The work of jobs: copying the sectors of claimed slots, on several threads.
//!
//! A job is claimed in a group, its sectors are copied outside of it, and then it is finished there. This crate has the middle part.
#![tactic(auto)]

mod bringing;
mod filling;
mod gate;
mod work;
mod workers;

pub use filling::fill;
pub use gate::{Gate, OpenGate};
pub use work::CopyWork;
pub use workers::Workers;
