//! Messages between the servers of a group.
use crate::{Entry, Slots, VoteLog};
use pf_base::{Sectors, ServerId, Slot, Term};

/// What a packet says.
#[derive(Drop)]
pub enum Body {
    /// A candidate with this checkpoint asks for a vote.
    RequestVote {
        base: Slot,
    },
    /// A vote, with what the voter holds.
    Vote(VoteLog),
    /// A leader proposes an entry of its term.
    Accept(Entry),
    /// The sender has the slot's entry of this term, or has applied all slots up to it; it has applied all up to `upto`.
    Ack {
        slot: Slot,
        upto: Slot,
    },
    /// The sender's term is higher than that of a packet that it got.
    Nack,
    /// The slot's entry of this term is chosen.
    Commit {
        slot: Slot,
    },
    /// A leader asks whether it still leads, for a read.
    Probe {
        number: u64,
    },
    /// The answer: the sender knows of no later leader.
    ProbeOk {
        number: u64,
        upto: Slot,
    },
    /// The sectors of a leader, with all slots up to `base` and those of `applied` in them.
    Image {
        base: Slot,
        applied: Slots,
        sectors: Sectors,
    },
}

/// A message from one server to another.
#[derive(Drop)]
pub struct Packet {
    pub from: ServerId,
    pub to: ServerId,
    pub term: Term,
    pub body: Body,
}
