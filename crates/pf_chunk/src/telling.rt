//! Reads that were answered are told.
ghost use Rattle.std.specs.Prelude.{◌≡◌, ◌≢◌, ℕ, ◌<◌, ◌++◌, List, false, true, IfOk, IsTrue, OnOk, Some, map, slice_get};
ghost use Rattle.pf_entry.specs.Lists.{Every};
ghost use Rattle.pf_entry.specs.Tables.{ascends};
ghost use Rattle.pf_group_rounds.specs.pf_group.specs.GroupIs.{state_of};
ghost use Rattle.pf_chunk.specs.Steps.{AreGoneThrough, ReadsAreTold};
ghost use Rattle.pf_chunk.specs.Telling.{AreTermsOf, lines_of, may_wait, now_taken, answer_taken_with};

use crate::Waiting;
use pf_base::NoMemory;
use pf_chunk_waiting::{Terms, WaitingReads};
use pf_disk::Disk;
use pf_group_rounds::pf_group::Group;
use pf_report::put_read;

/// Puts a line for the read if it was answered. Whether it waits on: not where its server runs in its term no more. It is handed out at
/// most, and no other is.
fn tell_read<D: Disk + Drop>(
    group: &mut Group<D>,
    one: Waiting,
    number: u8,
    out: &mut Vec<u8>,
) -> Result<bool, NoMemory>
    requires server { one.server < 3 }
    requires pending { slice_get group.old.taken one.number ≡ Some false }
    ensures kept { IfOk result (λ kept. IsTrue group.old.told → kept ≡ may_wait (state_of group.old) one) }
    ensures taken { OnOk result (IsTrue group.old.told → group.new.taken ≡ answer_taken_with (state_of group.old) group.old.taken one) }
    ensures told { OnOk result (IsTrue group.old.told → out.new.items ≡ out.old.items ++ lines_of number (state_of group.old) one.number) }
    ensures put { OnOk result ((text : List ℕ) × (out.new.items ≡ out.old.items ++ text)) }
    ensures still { IfOk result (λ kept. IsTrue kept → group.new.taken ≡ group.old.taken) }
    ensures others { (number : ℕ) → one.number ≢ number → slice_get group.new.taken number ≡ slice_get group.old.taken number }
    ensures same { group.new ≡ now_taken group.old group.new.taken }
{
    // That the history is legal is asked of the proof alone.
    group.laws();
    if let Some(sectors) = group.take_read(one.number) {
        put_read(out, number, one.number, &sectors)?;
        return Ok(false);
    }
    match group.term_of(one.server) {
        Ok(term) => Ok(term == one.term),
        Err(_) => Ok(false),
    }
}

/// In which terms the servers run.
fn terms_of<D: Disk + Drop>(group: &Group<D>) -> Terms
    ensures { IsTrue group.now.told → AreTermsOf (state_of group.now) result }
{
    [
        group.term_of(0).ok(),
        group.term_of(1).ok(),
        group.term_of(2).ok(),
    ]
}

/// Puts a line for each of these reads that was answered, in their order, and forgets all that wait no more. It goes through those of them
/// alone whose answers can be handed out, and through all where a server runs in another term than before.
pub(crate) fn tell_reads<D: Disk + Drop>(
    group: &mut Group<D>,
    waiting: &mut WaitingReads,
    number: u8,
    out: &mut Vec<u8>,
) -> Result<(), NoMemory>
    requires ascending { ascends (map (λ w. w.number) waiting.old.items) ≡ true }
    requires servers { Every (λ w. w.server < 3) waiting.old.items }
    requires pending { Every (λ w. slice_get group.old.taken w.number ≡ Some false) waiting.old.items }
    ensures through { OnOk result (AreGoneThrough group.old.taken waiting.old.items group.new.taken waiting.new.items) }
    ensures told { OnOk result ((text : List ℕ) × (out.new.items ≡ out.old.items ++ text)
        × (IsTrue group.old.told → ReadsAreTold number (state_of group.old) group.old.taken waiting.old.items group.new.taken waiting.new.items text)) }
    ensures same { group.new ≡ now_taken group.old group.new.taken }
{
    let terms = terms_of(group);
    let reads = waiting.choose(&terms, group.unread())?;
    for one in &reads {
        if !tell_read(group, *one, number, out)? {
            waiting.forget(one.number);
        }
    }
    waiting.note_terms(terms);
    Ok(())
}
