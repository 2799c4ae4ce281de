//! The row of a vote: what a running server does with the vote of another one.
//!
//! The rule is a definition of pf_protocol. The row carries it out over a store, and ends in one of four ways: it is done, refused,
//! out of memory, or cut off by a disk.
#![tactic(auto)]

mod leads;
mod merges;
mod sends;
mod votes;

pub use votes::vote;
