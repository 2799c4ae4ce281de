//! How far a log reaches once its void entries are dropped.
ghost use Rattle.pf_merge.specs.Lasts.{IsLastSlot};

use crate::staying::stays;
use pf_base::Slot;
use pf_entry::{EntryMap, VoteLog};

/// The greatest slot of the log in which an entry is left; `base` where none is.
pub(crate) fn last_left(base: Slot, own: &VoteLog, other: &VoteLog, log: &EntryMap) -> Slot
    ensures { IsLastSlot base own.now other.now log.now result }
{
    let mut last = base;
    for entry in log.as_slice() {
        if stays(base, own, other, entry) {
            last = last.max(entry.slot);
        }
    }
    last
}
