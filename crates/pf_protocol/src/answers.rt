//! What an event of a group is answered.
ghost use Rattle.std.specs.Prelude.{◌≡◌};
ghost use Rattle.pf_protocol.specs.Numbers.{refusal_number};

use pf_base::{Slot, Term};
use pf_entry::Job;
use thiserror::Error;

/// Why an event was refused. Each refusal has a number of its own.
#[derive(Clone, Copy, Debug, PartialEq, Eq, Error)]
pub enum Refusal {
    /// The range does not fit the chunk.
    #[error("bad range")]
    BadRange,
    /// The leader's next slot is too far above its checkpoint.
    #[error("window full")]
    WindowFull,
    /// The step's record does not fit the server's log file.
    #[error("log full")]
    LogFull,
    /// The server's disks hold no state of this server.
    #[error("not ours")]
    NotOurs,
    /// The server is no serving leader.
    #[error("not leader")]
    NotLeader,
    /// The server is stopped.
    #[error("down")]
    Down,
    /// A disk failed during the step. The server is stopped, and the next restart finds the step's record or not.
    #[error("halted")]
    Halted,
    /// No packet of this number was sent.
    #[error("no packet")]
    NoPacket,
    /// The packet was lost.
    #[error("lost packet")]
    LostPacket,
    /// The step's packets do not fit beside those that the group sent.
    #[error("packets full")]
    PacketsFull,
    /// The group has had all its elections.
    #[error("elections full")]
    ElectionsFull,
    /// No server has a slot that can be applied.
    #[error("none free")]
    NoneFree,
    /// The job is of an earlier life of its server, which has this one now.
    #[error("stale {0}")]
    Stale(u64),
    /// The volume's format has no marks.
    #[error("old format")]
    OldFormat,
}

impl Refusal {
    /// The number of this refusal.
    pub fn number(&self) -> u32
        ensures { result ≡ refusal_number self.now }
    {
        match self {
            Refusal::BadRange => 10,
            Refusal::WindowFull => 30,
            Refusal::LogFull => 41,
            Refusal::NotOurs => 42,
            Refusal::NotLeader => 50,
            Refusal::Down => 51,
            Refusal::Halted => 52,
            Refusal::NoPacket => 53,
            Refusal::LostPacket => 54,
            Refusal::PacketsFull => 55,
            Refusal::ElectionsFull => 56,
            Refusal::NoneFree => 60,
            Refusal::Stale(_) => 61,
            Refusal::OldFormat => 97,
        }
    }
}

/// What an event is answered.
#[derive(Drop)]
pub enum Answer {
    Done,
    /// The slot that a submission got.
    Slot(Slot),
    /// The term of a candidate.
    Term(Term),
    /// The number of a read.
    Read(u64),
    /// The checkpoint.
    Base(Slot),
    /// A job to be carried out.
    Job(Job),
    Refused(Refusal),
}
