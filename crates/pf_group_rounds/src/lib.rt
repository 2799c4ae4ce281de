//! What can be applied is applied, in rounds.
//!
//! This crate also says what a run of one group is: the state that its events lead to, where a list tells which of them a failing disk
//! cut off.
#![tactic(auto)]

mod applying;
mod claiming;
mod ending;

pub use applying::apply_all;
pub use pf_group;
pub use pf_group::pf_group_network;
