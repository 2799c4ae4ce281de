//! A walk along a log, slot by slot.
ghost use Rattle.std.specs.Prelude.{◌≡◌, ◌+◌, ℕ};
ghost use Rattle.std.specs.Option.{option_copied};
ghost use Rattle.std.specs.FinMap as map;
ghost use Rattle.pf_entry.specs.Maps.{Map};
ghost use Rattle.pf_entry.specs.declared.entries.Entry.{Entry};
ghost use Rattle.pf_merge.specs.Cursors.{IsFrom};

use pf_base::Slot;
use pf_entry::{Entry, EntryMap};

/// The entries of the log above `base`.
pub(crate) fn above(base: Slot, log: &EntryMap) -> &[Entry]
    ensures { IsFrom log.now (base + 1) result.now }
{
    let mut rest = log.as_slice();
    while let Some((entry, more)) = rest.split_first() {
        if base < entry.slot {
            return rest;
        }
        rest = more;
    }
    rest
}

/// The entry of the slot, and those after it, where the entries are those of a log from the slot on.
pub(crate) fn next_at(rest: &[Entry], slot: Slot) -> (Option<&Entry>, &[Entry])
    ensures { (log : Map Entry) → IsFrom log slot rest.now → (option_copied result.0 ≡ map.get log slot) × IsFrom log (slot + 1) result.1.now }
{
    match rest.split_first() {
        Some((entry, more)) if entry.slot == slot => (Some(entry), more),
        _ => (None, rest),
    }
}
