//! The records of a half, read into tables.
ghost use Rattle.std.specs.Prelude.{◌≡◌, ◌↔◌, IfOk, IsTrue, OnOk, false, true};
ghost use Rattle.pf_entry.specs.Lists.{Every};
ghost use Rattle.pf_entry.specs.Records.{add_start, add_merged_start, put_entries};
ghost use Rattle.pf_entry.specs.declared.records.Record.TheVariants.{Entry as EntryRecord, Merged as MergedRecord};
ghost use Rattle.pf_server_store.specs.Stores.{BeginsWithImage, is_image};
ghost use Rattle.pf_server_restart.specs.Recovering.{FirstRecordBegins, RecordFollows, SlotIsPlaced, Recovers, no_holes};

use pf_base::{NoMemory, Sectors, Slot, Term};
use pf_entry::{Entries, Entry, Record, Slots, VoteLog};
use pf_holes::HoleLog;
use pf_server_store::Found;
use pf_server_tables::StartTable;
use std::alloc::Global;
use std::collections::VecDeque;

/// What the records of a half give.
#[derive(Drop)]
pub struct Recovered {
    /// The format of the half, 1 or 2.
    pub format: u8,
    /// The bytes of the half that are used.
    pub used: u64,
    pub generation: u64,
    pub term: Term,
    pub starts: StartTable,
    pub log: HoleLog,
    /// The slots above the checkpoint that were applied when the image was saved.
    pub applied: Slots,
    /// The sectors then.
    pub sectors: Sectors,
}

/// Whether a log above this base has a place for the slot.
pub fn has_place(base: Slot, slot: Slot) -> bool
    ensures { IsTrue result ↔ SlotIsPlaced base slot }
{
    base < slot && slot - base <= 4096
}

/// Whether a log above this base has a place for each entry.
fn have_places(base: Slot, entries: &[Entry]) -> bool
    ensures { IsTrue result ↔ Every (λ e. SlotIsPlaced base e.slot) entries.now }
{
    entries.iter().all(|entry| has_place(base, entry.slot))
}

/// Puts the entries into the log.
fn put_all(log: &mut HoleLog, entries: Vec<Entry>)
    requires { Every (λ e. SlotIsPlaced log.old.base e.slot) entries.items }
    ensures { log.new ≡ record log.old { entries = put_entries log.old.entries entries.items } }
{
    for entry in entries {
        log.put(entry);
    }
}

/// A log without entries above this base.
fn empty_log(alloc: Global, base: Slot) -> Result<HoleLog, NoMemory>
    ensures { IfOk result (λ log. log ≡ no_holes base) }
{
    let mut log = HoleLog::new(alloc)?;
    log.trim(base);
    Ok(log)
}

/// Puts the term's start. `NoMemory` (1) where there is no memory for it.
fn add_start(starts: &mut StartTable, term: Term, first: Slot) -> Result<(), NoMemory>
    ensures { OnOk result (starts.new.starts ≡ add_start starts.old.starts term first) }
{
    starts.reserve()?;
    starts.put(term, first);
    Ok(())
}

/// Puts the term's start where slots were merged.
fn add_merged_start(
    starts: &mut StartTable,
    term: Term,
    first: Slot,
    merged: &[Entry],
) -> Result<(), NoMemory>
    ensures { OnOk result (starts.new.starts ≡ add_merged_start starts.old.starts term first merged.now) }
{
    if merged.is_empty() {
        return Ok(());
    }
    add_start(starts, term, first)
}

/// Reads an image, the first record of a half. `None` where an entry has no place above the image's checkpoint.
fn read_image(
    alloc: Global,
    format: u8,
    used: u64,
    image: Record,
) -> Result<Option<Recovered>, NoMemory>
    requires { is_image image ≡ true }
    ensures { IfOk result (FirstRecordBegins format used image) }
{
    match image {
        Record::Image {
            generation,
            term,
            vote,
            applied,
            sectors,
        } => {
            let VoteLog { base, starts, log } = vote;
            let entries = log.into_vec();
            if !have_places(base, &entries) {
                return Ok(None);
            }
            let mut log = empty_log(alloc, base)?;
            put_all(&mut log, entries);
            Ok(Some(Recovered {
                format,
                used,
                generation,
                term,
                starts: StartTable::from_starts(starts),
                log,
                applied,
                sectors,
            }))
        }
        Record::Term(_) => Ok(None),
        Record::Entry(_) => Ok(None),
        Record::Merged {
            term: _,
            first: _,
            entries: _,
        } => Ok(None),
    }
}

/// Reads an entry.
fn follow_entry(tables: &mut Recovered, entry: Entry) -> Result<bool, NoMemory>
    ensures { IfOk result (RecordFollows tables.old (EntryRecord entry) tables.new) }
{
    if !has_place(tables.log.base(), entry.slot) {
        return Ok(false);
    }
    add_start(&mut tables.starts, entry.term, entry.first)?;
    tables.term = entry.term;
    tables.log.put(entry);
    Ok(true)
}

/// Reads merged entries.
fn follow_merged(
    tables: &mut Recovered,
    term: Term,
    first: Slot,
    entries: Entries,
) -> Result<bool, NoMemory>
    ensures { IfOk result (RecordFollows tables.old (MergedRecord term first entries) tables.new) }
{
    let entries = entries.into_vec();
    if !have_places(tables.log.base(), &entries) {
        return Ok(false);
    }
    add_merged_start(&mut tables.starts, term, first, &entries)?;
    tables.term = term;
    put_all(&mut tables.log, entries);
    Ok(true)
}

/// Reads one more record, and tells whether each entry of it has a place.
fn follow(tables: &mut Recovered, next: Record) -> Result<bool, NoMemory>
    requires { is_image next ≡ false }
    ensures { IfOk result (RecordFollows tables.old next tables.new) }
{
    match next {
        Record::Term(term) => {
            tables.term = term;
            Ok(true)
        }
        Record::Entry(entry) => follow_entry(tables, entry),
        Record::Merged {
            term,
            first,
            entries,
        } => follow_merged(tables, term, first, entries),
        Record::Image {
            generation: _,
            term: _,
            vote: _,
            applied: _,
            sectors: _,
        } => Ok(false),
    }
}

/// Reads the records of a half. `None` where an entry is not one of the 4,096 slots above the checkpoint.
pub fn recover(alloc: Global, found: Found) -> Result<Option<Recovered>, NoMemory>
    requires { BeginsWithImage found.records.items }
    ensures { IfOk result (Recovers found) }
{
    let Found {
        format,
        used,
        records,
    } = found;
    let mut records = VecDeque::from_vec(records);
    let Some(image) = records.pop_front() else {
        return Ok(None);
    };
    let Some(mut tables) = read_image(alloc, format, used, image)? else {
        return Ok(None);
    };
    while let Some(next) = records.pop_front() {
        if !follow(&mut tables, next)? {
            return Ok(None);
        }
    }
    Ok(Some(tables))
}
