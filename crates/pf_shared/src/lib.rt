//! A group behind a turn: threads carry out its events one after another, and each knows what it has seen of the one history.
//!
//! Each call is one turn, and adds one entry to the list behind the turn: an event with its answer, or a look. The list without its
//! looks is the group's history. Nothing is promised of the order in which callers come to their turns, nor that a turn ever comes.
#![tactic(auto)]

mod behind;
mod calls;
mod looks;
mod moment;
mod parts;
mod start;
mod told;

pub use behind::Behind;
pub use moment::{Did, SeatMoment};
pub use parts::{GroupSeat, SharedGroup};
pub use pf_group_rounds;
pub use pf_group_rounds::pf_group;
pub use start::SharedStart;
