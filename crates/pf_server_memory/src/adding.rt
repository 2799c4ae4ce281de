//! Adding a record, and saving an image.
ghost use Rattle.std.specs.Prelude.{◌≡◌};
ghost use Rattle.pf_entry.specs.Records.{Durable};
ghost use Rattle.pf_entry.specs.declared.records.Record.{Record as RecordIs};
ghost use Rattle.pf_entry.specs.declared.records.Record.TheVariants.{Entry as EntryRecord, Merged as MergedRecord};
ghost use Rattle.pf_server_store.specs.Stores.{IsImageOf, IsSpelledAs};
ghost use Rattle.pf_codec.specs.Spelling.{body_bytes};
ghost use Rattle.pf_server_memory.specs.Storing.{Saves, Stores};

use crate::StepFault;
use pf_base::{Slot, Term};
use pf_codec::{spell_entry, spell_merged, spell_record};
use pf_entry::{Entry, Record};
use pf_protocol::Refusal;
use pf_server_store::Store;
use std::alloc::Global;

/// The most bytes of an image's body: a half without its head and first gate.
const ROOM: u64 = 67_108_855;

/// Adds a record to the store. The store is as it was after `NoMemory` (1) and after `LogFull` (41), which comes exactly where
/// the record does not fit the current half. `Halted` (52) comes only where a disk failed.
pub fn add<S: Store>(alloc: Global, store: &mut S, rec: &Record) -> Result<(), StepFault>
    requires whole { (d : Durable) × S.model.holds store.old d d }
    requires spelled { IsSpelledAs (S.model.format store.old) rec.now (body_bytes rec.now) }
    ensures { (d : Durable) → S.model.holds store.old d d → S.model.used store.old ≡ d.used → Stores S.model d rec.now store.old store.new result }
{
    let body = spell_record(alloc, rec)?;
    add_body(store, &body)
}

/// Adds the record of this entry, as `add` does. Its body is spelled in the store's own memory.
pub fn add_entry<S: Store>(alloc: Global, store: &mut S, entry: &Entry) -> Result<(), StepFault>
    requires whole { (d : Durable) × S.model.holds store.old d d }
    requires spelled { IsSpelledAs (S.model.format store.old) (EntryRecord entry.now) (body_bytes (EntryRecord entry.now)) }
    ensures { (d : Durable) → S.model.holds store.old d d → S.model.used store.old ≡ d.used
        → Stores S.model d (EntryRecord entry.now) store.old store.new result }
{
    let body = spell_entry(store.lend(alloc), entry)?;
    let added = add_body(store, &body);
    store.keep(body);
    added
}

/// Adds the record of these merged entries and the first new slot, as `add` does.
pub fn add_merged<S: Store>(
    alloc: Global,
    store: &mut S,
    term: Term,
    first: Slot,
    entries: &[Entry],
) -> Result<(), StepFault>
    requires whole { (d : Durable) × S.model.holds store.old d d }
    requires spelled { IsSpelledAs (S.model.format store.old) (MergedRecord term first entries.now) (body_bytes (MergedRecord term first entries.now)) }
    ensures { (d : Durable) → S.model.holds store.old d d → S.model.used store.old ≡ d.used
        → Stores S.model d (MergedRecord term first entries.now) store.old store.new result }
{
    let body = spell_merged(alloc, term, first, entries)?;
    add_body(store, &body)
}

/// Adds the record that has this body. It takes no memory.
fn add_body<S: Store>(store: &mut S, body: &[u8]) -> Result<(), StepFault>
    requires whole { (d : Durable) × S.model.holds store.old d d }
    requires spelled { (r : RecordIs) × IsSpelledAs (S.model.format store.old) r body.now }
    ensures { (d : Durable) (r : RecordIs) → S.model.holds store.old d d → S.model.used store.old ≡ d.used → IsSpelledAs (S.model.format store.old) r body.now
        → Stores S.model d r store.old store.new result }
{
    if !store.has_room(body.len() as u64) {
        return Err(StepFault::Refused(Refusal::LogFull));
    }
    Ok(store.append(body)?)
}

/// Saves the body of an image in the other half, in format 2. The store is as it was after `LogFull` (41), which comes exactly
/// where the image does not fit a half of 67,108,864 bytes. `Halted` (52) comes only where a disk failed. It takes no memory.
pub fn save<S: Store>(store: &mut S, body: &[u8]) -> Result<(), StepFault>
    requires whole { (d : Durable) × S.model.holds store.old d d × ((r : RecordIs) × IsImageOf d r body.now) }
    ensures { (d : Durable) (r : RecordIs) → S.model.holds store.old d d → IsImageOf d r body.now → Saves S.model d r store.old store.new result }
{
    if ROOM < body.len() as u64 {
        return Err(StepFault::Refused(Refusal::LogFull));
    }
    Ok(store.save(body)?)
}
