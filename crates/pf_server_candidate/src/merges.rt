//! What a new leader takes over from two votes.
ghost use Rattle.std.specs.Prelude.{◌≡◌, ◌-◌, ◌<◌, ◌^◌, IfOk, suc};
ghost use Rattle.pf_entry.specs.Merging.{merged_first, merged_entries};
ghost use Rattle.pf_merge.specs.Staying.{AreNumbered};
ghost use Rattle.pf_server_candidate.specs.Merging.{TableHasBegun, IsTakeover};

use pf_base::{NoMemory, ServerId, Slot, Term};
use pf_entry::{Entry, Look, VoteLog};
use pf_merge::{Merged, merge};
use pf_server_memory::Running;
use pf_server_tables::Acks;
use std::alloc::Global;

/// What a new leader takes over.
#[derive(Drop)]
pub struct Takeover {
    /// Its first new slot.
    pub first: Slot,
    /// The merged entries, under its own term.
    pub entries: Vec<Entry>,
    /// The leader has acknowledged each merged slot.
    pub acks: Acks,
}

/// The first new slot, and the merged entries.
fn merged_entries(
    alloc: Global,
    term: Term,
    base: Slot,
    own: &VoteLog,
    vote: &VoteLog,
) -> Result<(Slot, Vec<Entry>), NoMemory>
    requires base { base < 2 ^ 64 - 1 }
    requires own { AreNumbered own.now.log }
    requires vote { AreNumbered vote.now.log }
    requires first { merged_first base own.now vote.now < 2 ^ 64 }
    ensures first { IfOk result (λ found. found.0 ≡ merged_first base own.now vote.now) }
    ensures entries { IfOk result (λ found. found.1.items ≡ merged_entries term base own.now vote.now) }
{
    let Merged { first, ops } = merge(alloc, base, own, vote)?;
    let ops = ops.into_vec();
    let mut entries = Vec::with_capacity(alloc, ops.len())?;
    let mut slot = base;
    for op in ops {
        slot += 1;
        let look = Look::none(alloc);
        entries.push(Entry {
            slot,
            term,
            first,
            look,
            op,
        })?;
    }
    Ok((first, entries))
}

/// The server alone has acknowledged the slots from the one above `base` to the one before `first`.
fn acknowledged(alloc: Global, me: ServerId, base: Slot, first: Slot) -> Result<Acks, NoMemory>
    requires me { me < 3 }
    requires above { base < first }
    ensures { IfOk result (TableHasBegun me base (first - suc base)) }
{
    let count = (first - base - 1) as usize;
    let mut acks = Acks::new(alloc, base);
    acks.reserve(count)?;
    for _ in 0..count {
        acks.begin(me);
    }
    Ok(acks)
}

/// Takes all the memory that a new leader wants, but for its start.
pub fn plan(
    alloc: Global,
    me: &Running,
    own: &VoteLog,
    vote: &VoteLog,
) -> Result<Takeover, NoMemory>
    requires number { me.now.number < 3 }
    requires base { me.now.log.base < 2 ^ 64 - 1 }
    requires own { AreNumbered own.now.log }
    requires vote { AreNumbered vote.now.log }
    requires first { merged_first me.now.log.base own.now vote.now < 2 ^ 64 }
    ensures { IfOk result (IsTakeover me.now own.now vote.now) }
{
    let base = me.log.base();
    let (first, entries) = merged_entries(alloc, me.term, base, own, vote)?;
    let acks = acknowledged(alloc, me.number, base, first)?;
    Ok(Takeover {
        first,
        entries,
        acks,
    })
}
