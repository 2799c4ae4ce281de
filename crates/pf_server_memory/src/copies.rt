//! Copies of what a server holds.
ghost use Rattle.std.specs.Prelude.{◌≡◌, ◌≤◌, ◌<◌, IfOk};
ghost use Rattle.pf_entry.specs.Records.{above, vote_of};
ghost use Rattle.pf_server_memory.specs.Bounds.{far};
ghost use Rattle.pf_server_memory.specs.Standing.{state_in_memory};

use crate::Running;
use pf_base::{NoMemory, Slot};
use pf_entry::{EntryMap, VoteLog};
use pf_holes::HoleLog;
use std::alloc::Global;

/// What the server hands to a candidate: its checkpoint, its starts and its log. `NoMemory` (1) where there is no memory.
pub fn vote_of(alloc: Global, me: &Running) -> Result<VoteLog, NoMemory>
    ensures { IfOk result (λ vote. vote ≡ vote_of (state_in_memory me.now)) }
{
    Ok(VoteLog {
        base: me.log.base(),
        starts: me.starts.copied(alloc)?,
        log: me.log.copied(alloc)?,
    })
}

/// A copy of the entries above a slot that is no lower than the log's base. Their sectors are shared. It takes a step for each
/// slot above it up to the last, at most 4,096. `NoMemory` (1) where there is no memory.
pub fn copied_above(alloc: Global, log: &HoleLog, base: Slot) -> Result<EntryMap, NoMemory>
    requires reached { log.now.base ≤ base }
    requires small { base < far }
    ensures { IfOk result (λ entries. entries ≡ above base log.now.entries) }
{
    let end = log.last().min(log.base() + 4096);
    let most = end.saturating_sub(base);
    let mut rows = Vec::with_capacity(alloc, most as usize)?;
    for slot in base..end {
        if let Some(entry) = log.get(slot + 1) {
            rows.push(entry.try_clone(alloc)?)?;
        }
    }
    Ok(EntryMap::new(rows))
}
