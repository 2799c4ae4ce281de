//! When an entry may be applied before all earlier ones are.
ghost use Rattle.std.specs.Prelude.{◌≡◌};
ghost use Rattle.pf_base.specs.Span.{overlaps};
ghost use Rattle.pf_entry.specs.Sets as set;
ghost use Rattle.pf_entry.specs.Applying.{is_free, passes};

use crate::SlotSet;
use pf_base::{Range, Slot};
use pf_entry::{Entry, Named};

/// Whether every slot below the entry's is applied, or named by it with a range that shares no sector with its own
/// (PolarFS: out-of-order apply). It looks at the slots from the applied prefix to the entry's alone.
pub fn is_free(entry: &Entry, applied: &SlotSet) -> bool
    ensures { result ≡ is_free (set.contains applied.now.slots) entry.now }
{
    let range = entry.op.range();
    let mut behind = 0;
    for slot in applied.upto()..entry.slot.saturating_sub(1) {
        if applied.has_behind(slot + 1, behind) {
            behind = behind.saturating_add(1);
        } else if !lets_pass(entry.look.as_slice(), slot + 1, &range) {
            return false;
        }
    }
    true
}

/// Whether the slot is named with a range that shares no sector with this one.
fn lets_pass(look: &[Named], slot: Slot, range: &Range) -> bool
    ensures { result ≡ passes look.now slot range.now }
{
    look.iter()
        .any(|named| named.slot == slot && !named.range.overlaps(range))
}
