//! Workers that take turns, each in a thread of its own where one can be started.
//!
//! A worker's contract is that of its turns: what it may become by one. What all turns of a run made of it is known of each worker
//! that comes back. Nothing is promised of the order of turns, nor that a worker ever ends.
#![tactic(auto)]

mod bell;
mod crew;
mod works;

pub use bell::Bell;
pub use crew::run_all;
pub use works::{Turned, Works};
