//! What happens to a group.
use crate::Answer;
use pf_base::{Range, ServerId, Slot};
use pf_entry::Op;

/// One event, as the history of a group keeps it.
#[derive(Drop)]
pub enum Event {
    /// A host hands a write or a mark to a server.
    Submit {
        server: ServerId,
        op: Op,
    },
    /// A host asks a server for the sectors of a range.
    Fetch {
        server: ServerId,
        range: Range,
    },
    /// The packet of this number comes, perhaps once more.
    Deliver(u32),
    /// The packet of this number is lost.
    Lose(u32),
    /// A server stands for election.
    Elect(ServerId),
    /// A server sends again what others may have missed.
    Resend(ServerId),
    Stop(ServerId),
    /// A server begins again from its disks. `found` tells whether the record of a halted step was on them.
    Restart {
        server: ServerId,
        found: bool,
    },
    /// Some server has a slot to be applied.
    Claim,
    /// A job of this life of the server is done.
    Finish {
        server: ServerId,
        life: u64,
        slot: Slot,
    },
    /// A job of this life of the server will not be done.
    GiveBack {
        server: ServerId,
        life: u64,
        slot: Slot,
    },
    /// A server takes a checkpoint.
    Checkpoint(ServerId),
}

/// An event and what it was answered.
#[derive(Drop)]
pub struct Happening {
    pub event: Event,
    pub answer: Answer,
}
