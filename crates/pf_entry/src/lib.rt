//! Ops, log entries, packets and records of a chunk group, and the rules that speak of these alone: what is void,
//! what a merge takes, what may be applied, and what the sectors then hold.
//!
//! The structs and enums here are the words of the rules: a definition names them as they are declared.
#![tactic(auto)]

mod entries;
mod ops;
mod packets;
mod records;
mod tables;

pub use entries::{Entries, Entry, EntryMap, Look, Named, VoteLog};
pub use ops::{Job, Op};
pub use packets::{Body, Packet};
pub use records::Record;
pub use tables::{Slots, Start, Starts};
