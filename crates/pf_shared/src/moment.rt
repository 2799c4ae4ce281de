//! The entries of the list behind the turn.
use pf_protocol::Happening;

/// What one turn did: an event of the group, or a look, which changes nothing. A look that took a read's answer has the read's number.
#[derive(Drop)]
pub enum SeatMoment {
    Happened(Happening),
    Look { read: Option<u64> },
}

/// What one turn did, where the group's history has the event.
#[derive(Clone, Copy, Debug, PartialEq, Eq)]
pub enum Did {
    Acted,
    Looked { read: Option<u64> },
}
