//! The merge stage of a new leader (ParallelRaft): what it makes of its own log and the log of one voter.
#![tactic(auto)]

mod cursors;
mod lasts;
mod merging;
mod ops;
mod staying;

pub use merging::{Merged, merge};
pub use ops::Ops;
