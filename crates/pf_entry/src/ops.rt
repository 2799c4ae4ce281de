//! What one slot of a log does to the chunk.
ghost use Rattle.std.specs.Prelude.{◌≡◌, IfOk};
ghost use Rattle.pf_entry.specs.Ops.{range_of};

use pf_base::{NoMemory, Payload, Range, ServerId, Slot};

/// The effect of a slot (PolarFS: an entry of the log).
#[derive(Drop)]
pub enum Op {
    /// Writes the sectors of its range, 1 to 8 of them.
    Write { range: Range, payload: Payload },
    /// Writes nothing, and can be passed by every other op.
    Noop,
    /// Writes nothing, but overlaps every write: a snapshot can be taken where it is applied.
    Mark,
}

impl Op {
    /// One more holder of the op. Its sectors are shared.
    pub fn try_clone(&self) -> Result<Op, NoMemory>
        ensures { IfOk result (λ op. op ≡ self.now) }
    {
        Ok(match self {
            Op::Write { range, payload } => Op::Write {
                range: *range,
                payload: payload.try_clone()?,
            },
            Op::Noop => Op::Noop,
            Op::Mark => Op::Mark,
        })
    }

    /// The range by which the op is ordered against others: its sectors, none, or the whole chunk.
    #[tactic(auto, unfolding(crate::specs::Ops::range_of))]
    pub fn range(&self) -> Range
        ensures { result ≡ range_of self.now }
    {
        match self {
            Op::Write { range, payload: _ } => *range,
            Op::Noop => Range::none(),
            Op::Mark => Range::all(),
        }
    }
}

/// An op that a server is to apply, claimed in the given life of that server.
#[derive(Drop)]
pub struct Job {
    pub server: ServerId,
    pub life: u64,
    pub slot: Slot,
    pub op: Op,
}
