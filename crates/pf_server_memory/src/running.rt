//! What a running server has in memory.
ghost use Rattle.std.specs.Prelude.{◌≡◌, ◌<◌};
ghost use Rattle.pf_entry.specs.Records.{Durable};
ghost use Rattle.pf_protocol.specs.Servers.{upto, has_applied};
ghost use Rattle.pf_server_memory.specs.Standing.{server_of, IsCached};

use crate::Replies;
use pf_base::{ServerId, Slot, Term};
use pf_election::{Candidacy, Probes};
use pf_entry::Op;
use pf_holes::{HoleLog, SlotSet};
use pf_server_tables::{Acks, CopyRoom, Few, Known, SectorTable, Snapshots, StartTable};

/// What a leader keeps.
#[derive(Drop)]
pub struct Leader {
    /// Its first new slot.
    pub first: Slot,
    /// The slot of its next proposal.
    pub next: Slot,
    /// Who acknowledged its proposals, from the slot above its checkpoint on as it became leader.
    pub acks: Acks,
    pub known: Known,
    /// Each merged slot up to this one was acknowledged by another server.
    pub settled: Slot,
}

#[derive(Drop)]
pub enum Role {
    Follower,
    Candidate(Candidacy),
    Merging(Leader),
    Serving(Leader),
}

/// The term, the generation, the starts, and the checkpoint and entries of the log are those of its records.
pub struct Running {
    pub number: ServerId,
    pub life: u64,
    /// The most slots that an entry names.
    pub names: u8,
    /// The format in which the volume's disks were formatted, 1 or 2.
    pub format: u8,
    pub term: Term,
    pub generation: u64,
    pub starts: StartTable,
    pub log: HoleLog,
    pub role: Role,
    /// The applied slots, those up to the checkpoint too.
    pub applied: SlotSet,
    pub sectors: SectorTable,
    /// The ops of the jobs in hand, by their slots.
    pub in_hand: Few<Op>,
    pub jobs: usize,
    /// The memory of the snapshots of marks in hand, by their slots.
    pub rooms: Few<CopyRoom>,
    pub reads: Probes,
    pub replies: Replies,
    pub snapshots: Snapshots,
}

/// By hand, so that what lets it go calls this, and no crate above proves anew how its parts go.
impl Drop for Running {
    fn drop(self) {
        let Running {
            number: _,
            life: _,
            names: _,
            format: _,
            term: _,
            generation: _,
            starts: _,
            log: _,
            role: _,
            applied: _,
            sectors: _,
            in_hand: _,
            jobs: _,
            rooms: _,
            reads: _,
            replies: _,
            snapshots: _,
        } = self;
    }
}

impl Running {
    /// The greatest slot up to which all slots are applied.
    pub fn upto(&self) -> Slot
        requires { (d : Durable) × IsCached d self.now }
        ensures { (d : Durable) → IsCached d self.now → result ≡ upto (server_of d self.now) }
    {
        self.applied.upto()
    }

    /// Whether the slot, which is at least 1, is applied.
    pub fn has_applied(&self, slot: Slot) -> bool
        requires above { 0 < slot }
        ensures { (d : Durable) → IsCached d self.now → result ≡ has_applied (server_of d self.now) slot }
    {
        self.applied.has(slot)
    }
}
