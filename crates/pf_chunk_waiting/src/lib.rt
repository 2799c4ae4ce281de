//! The reads of a chunk that wait for their answer. What is told of a few of them takes no step for each of the others.
#![tactic(auto)]

mod places;
mod reads;
mod waiting;

pub use reads::WaitingReads;
pub use waiting::{Terms, Waiting};
