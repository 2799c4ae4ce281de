//! What can be applied in the end.
ghost use Rattle.std.specs.Prelude.{◌≡◌, ◌&&◌, if◌then◌else◌, IfOk, IsTrue, OnOk};
ghost use Rattle.pf_entry.specs.Applying.{is_free};
ghost use Rattle.pf_entry.specs.EntryMaps.{slots_in};
ghost use Rattle.pf_entry.specs.Sets as set;
ghost use Rattle.pf_entry.specs.Tables.{ascends};
ghost use Rattle.pf_holes.specs.Closing.{IsClosure};

use crate::SlotSet;
use crate::freedom::is_free;
use pf_base::NoMemory;
use pf_entry::Entry;
use std::alloc::Global;

/// Puts the entry's slot into the set, where it is committed and free.
fn reach(entry: &Entry, committed: &SlotSet, reached: &mut SlotSet) -> Result<(), NoMemory>
    ensures { OnOk result (reached.new.slots ≡ (if set.contains committed.now.slots entry.now.slot && is_free (set.contains reached.old.slots) entry.now
        then set.insert reached.old.slots entry.now.slot else reached.old.slots)) }
{
    if committed.has(entry.slot) && is_free(entry, reached) {
        reached.reserve(1)?;
        reached.add(entry.slot);
    }
    Ok(())
}

/// The slots that are reached from the applied ones by applying, one after another, committed entries that are free. The entries
/// stand in the order of their slots, as a log's do, each slot once.
///
/// One pass reaches them all, since an entry is free by slots below its own. `NoMemory` (1) where there is no memory for the set.
pub fn closure(
    alloc: Global,
    entries: &[Entry],
    committed: &SlotSet,
    applied: &SlotSet,
) -> Result<SlotSet, NoMemory>
    requires { IsTrue (ascends (slots_in entries.now)) }
    ensures { IfOk result (λ closure. IsClosure entries.now committed.now.slots applied.now.slots closure.slots) }
{
    let mut reached = applied.try_clone(alloc)?;
    for entry in entries {
        reach(entry, committed, &mut reached)?;
    }
    Ok(reached)
}
