//! A ticket lock: callers take turns with one value, and each knows what it has seen of the value's list of entries.
//!
//! The value stands for a list to which each turn may add entries, stamped with the number of the caller's seat. A caller that
//! has its turn finds all that it has seen, and all that it added itself; in between others may have added theirs. Nothing is
//! promised of the order in which callers come to their turns, nor that a turn ever comes.
#![tactic(auto)]

mod door;
mod lock;
mod log;
mod parts;
mod plays;
mod sight;

pub use log::{Logged, Stamped};
pub use parts::{Turn, TurnLock, TurnSeat};
