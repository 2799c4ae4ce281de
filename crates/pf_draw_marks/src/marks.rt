//! What is seen on the lanes of a picture.
ghost use Rattle.std.specs.Prelude.{◌≡◌};
ghost use Rattle.pf_draw_marks.specs.Symbols.{mount_symbol, server_symbol};

use pf_base::{Bytes, ServerId, Slot, Term};
use pf_draw_shapes::Symbol;

/// What a packet says, by its kind.
#[derive(Clone, Copy)]
pub enum PacketKind {
    /// A candidate asks for a vote.
    RequestVote,
    /// A vote.
    Vote,
    /// A leader proposes the entry of a slot.
    Accept(Slot),
    /// The sender has the slot's entry.
    Ack(Slot),
    /// The sender's term is higher.
    Nack,
    /// The slot's entry is chosen.
    Commit(Slot),
    /// A leader asks whether it still leads, for the read of this number.
    Probe(u64),
    /// The answer to that.
    ProbeOk(u64),
    /// The sectors of a leader, with all slots up to this one.
    Image(Slot),
}

/// A packet: its number in its group, in the order of sending from 0 on, its ends, its sender's term and its kind.
#[derive(Clone, Copy)]
pub struct Passage {
    pub packet: u32,
    pub from: ServerId,
    pub to: ServerId,
    pub term: Term,
    pub kind: PacketKind,
}

/// What an entry of a log writes.
#[derive(Clone, Copy)]
pub enum Content {
    /// So many sectors from the first on.
    Sectors { first: u32, count: u32 },
    /// A mark.
    Mark,
    /// Nothing.
    Noop,
}

/// What is seen on the lane of a server.
#[derive(Clone, Copy)]
pub enum ServerMark {
    /// It sent the packet.
    Sends(Passage),
    /// The packet came to it, perhaps once more.
    Takes(Passage),
    /// The packet came to it, and was refused.
    Refuses(Passage),
    /// The packet to it was lost.
    Misses(Passage),
    /// The packet to it was neither delivered nor lost as the picture ends.
    Awaits(Passage),
    /// Its log has this entry now.
    Stores {
        slot: Slot,
        term: Term,
        content: Content,
    },
    /// It knows that the slot's entry is chosen.
    Commits(Slot),
    /// The slot's entry stands in its sectors.
    Applies(Slot),
    /// It told a host that the slot is committed.
    Acknowledges(Slot),
    /// It stands for election in this term.
    Stands(Term),
    /// It leads this term, and merges the logs of a majority.
    Leads(Term),
    /// It serves hosts in this term.
    Serves(Term),
    /// It follows in this term, which is new to it.
    Follows(Term),
    Stops,
    /// A disk failed, and it stopped.
    Halts,
    Restarts,
    /// Its checkpoint is this slot now.
    Checkpoint(Slot),
    /// It took the sectors of a leader, with all slots up to this one.
    Image(Slot),
    /// It has a snapshot at the mark in this slot now.
    Snapshot(Slot),
    /// As the picture ends it does not run.
    IsDown,
    /// As the picture ends it has this checkpoint, and has applied all slots up to the second.
    Ends {
        base: Slot,
        upto: Slot,
    },
}

/// What is seen on the lane of a mount.
#[derive(Drop)]
pub enum MountMark {
    /// It is made.
    Mounts,
    /// It is no more.
    Ends,
    /// A call of these words begins.
    Begins(Bytes),
    /// Its call ends, with this answer.
    Answers(Bytes),
    /// It asks for a ballot on this position of the journal.
    Ballot(u64),
    /// It knows what was decided at this position.
    Decides(u64),
}

impl ServerMark {
    /// The symbol of the mark.
    pub fn symbol(&self) -> Symbol
        ensures { result ≡ server_symbol self.now }
    {
        match self {
            ServerMark::Sends(_) => Symbol::Sent,
            ServerMark::Takes(_) => Symbol::Taken,
            ServerMark::Refuses(_) => Symbol::Refused,
            ServerMark::Misses(_) => Symbol::Lost,
            ServerMark::Awaits(_) => Symbol::Left,
            ServerMark::Stores { .. } => Symbol::Stored,
            ServerMark::Commits(_) => Symbol::Chosen,
            ServerMark::Applies(_) | ServerMark::Ends { .. } => Symbol::Applied,
            ServerMark::Acknowledges(_) => Symbol::Told,
            ServerMark::Stands(_) => Symbol::Asks,
            ServerMark::Leads(_) => Symbol::Leads,
            ServerMark::Serves(_) => Symbol::Serves,
            ServerMark::Follows(_) => Symbol::Follows,
            ServerMark::Stops | ServerMark::IsDown => Symbol::Stops,
            ServerMark::Halts => Symbol::Fails,
            ServerMark::Restarts => Symbol::Starts,
            ServerMark::Checkpoint(_) | ServerMark::Snapshot(_) => Symbol::Kept,
            ServerMark::Image(_) => Symbol::Image,
        }
    }
}

impl MountMark {
    /// The symbol of the mark.
    pub fn symbol(&self) -> Symbol
        ensures { result ≡ mount_symbol self.now }
    {
        match self {
            MountMark::Mounts => Symbol::Starts,
            MountMark::Ends => Symbol::Stops,
            MountMark::Begins(_) => Symbol::Sent,
            MountMark::Answers(_) => Symbol::Told,
            MountMark::Ballot(_) => Symbol::Asks,
            MountMark::Decides(_) => Symbol::Chosen,
        }
    }
}
