//! What a server writes to its disks.
use crate::{Entries, Entry, Slots, VoteLog};
use pf_base::{Sectors, Slot, Term};

/// One record. The first of a half is its image, and the others follow it.
#[derive(Drop)]
pub enum Record {
    /// The whole state: the checkpoint, starts and log of `vote`, and the sectors with the slots of `applied` in them.
    Image {
        generation: u64,
        term: Term,
        vote: VoteLog,
        applied: Slots,
        sectors: Sectors,
    },
    /// A higher term.
    Term(Term),
    /// An entry that was accepted, or that the leader itself proposed.
    Entry(Entry),
    /// What a leader merged, with its first new slot.
    Merged {
        term: Term,
        first: Slot,
        entries: Entries,
    },
}
