//! The merge of two vote logs.
ghost use Rattle.std.specs.Prelude.{◌≡◌, ◌≤◌, ◌+◌, ◌-◌, ◌<◌, ◌^◌, suc, map, IfOk};
ghost use Rattle.std.specs.List.{range_with_len};
ghost use Rattle.std.specs.Option.{option_copied};
ghost use Rattle.pf_entry.specs.Merging.{higher, left_of, merged_first, merged_op, op_or_noop};
ghost use Rattle.pf_merge.specs.Staying.{AreNumbered};

use crate::Ops;
use crate::cursors::{above, next_at};
use crate::lasts::last_left;
use crate::staying::{higher, left};
use pf_base::{NoMemory, Slot};
use pf_entry::{Entry, Op, VoteLog};
use std::alloc::Global;

/// What a new leader proposes anew, under its own term and with no look-behind lists.
#[derive(Drop)]
pub struct Merged {
    /// The first slot that the leader proposes by itself: one more than the greatest in which an entry is left.
    pub first: Slot,
    /// The ops of the slots from the one above the checkpoint to the one before `first`.
    pub ops: Ops,
}

/// Merges the candidate's own vote and that of another server, above the candidate's checkpoint `base`.
///
/// Entries that are void by the starts of either are dropped: a later term began at or below their slot, so they may
/// be old ones that come back. In each slot the entry of the highest term is taken, the candidate's own where both
/// have one of that term, and a no-op where none is left (PolarFS: the merge stage of ParallelRaft; the no-op in a
/// gap and the dropping of void entries are this project's). It goes once along both logs, with a look at the starts
/// for each entry; the sectors of the ops are shared. The one error is `NoMemory` (1).
pub fn merge(alloc: Global, base: Slot, own: &VoteLog, other: &VoteLog) -> Result<Merged, NoMemory>
    requires base { base < 2 ^ 64 - 1 }
    requires own { AreNumbered own.now.log }
    requires other { AreNumbered other.now.log }
    ensures first { IfOk result (λ merged. merged.first ≡ merged_first base own.now other.now) }
    ensures ops { IfOk result (λ merged. merged.ops ≡ map (merged_op base own.now other.now) (range_with_len (suc base) (merged.first - suc base))) }
{
    let mine = last_left(base, own, other, &own.log);
    let theirs = last_left(base, own, other, &other.log);
    let last = mine.max(theirs);
    Ok(Merged {
        first: last + 1,
        ops: merged_ops(alloc, base, last, own, other)?,
    })
}

/// The ops of the slots above `base` up to `last`.
fn merged_ops(
    alloc: Global,
    base: Slot,
    last: Slot,
    own: &VoteLog,
    other: &VoteLog,
) -> Result<Ops, NoMemory>
    requires { base ≤ last }
    ensures { IfOk result (λ ops. ops ≡ map (merged_op base own.now other.now) (range_with_len (base + 1) (last - base))) }
{
    let mut ops = Vec::with_capacity(alloc, (last - base) as usize)?;
    let mut mine = above(base, &own.log);
    let mut theirs = above(base, &other.log);
    for slot in base..last {
        let (own_entry, own_rest) = next_at(mine, slot + 1);
        let (other_entry, other_rest) = next_at(theirs, slot + 1);
        mine = own_rest;
        theirs = other_rest;
        ops.push(op_at(base, own, other, slot + 1, own_entry, other_entry)?)?;
    }
    Ok(Ops::new(ops))
}

/// The op of a slot in which the two logs have these entries.
fn op_at(
    base: Slot,
    own: &VoteLog,
    other: &VoteLog,
    slot: Slot,
    own_entry: Option<&Entry>,
    other_entry: Option<&Entry>,
) -> Result<Op, NoMemory>
    ensures { IfOk result (λ op. op ≡ op_or_noop (higher (left_of base own.now other.now slot (option_copied own_entry.entry))
        (left_of base own.now other.now slot (option_copied other_entry.entry)))) }
{
    let mine = left(base, own, other, slot, own_entry);
    let theirs = left(base, own, other, slot, other_entry);
    match higher(mine, theirs) {
        Some(entry) => entry.op.try_clone(),
        None => Ok(Op::Noop),
    }
}
