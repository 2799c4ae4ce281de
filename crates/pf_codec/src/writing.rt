//! Entries, votes and records at the end of bytes.
ghost use Rattle.std.specs.Prelude.{◌≡◌, ◌<◌, ◌≤◌, ◌^◌, ◌++◌, IfOk, OnOk, length};
ghost use Rattle.std.specs.Int.{w64};
ghost use Rattle.std.specs.List.{flat_map};
ghost use Rattle.std.specs.FinMap as finite;
ghost use Rattle.pf_entry.specs.Canonical.{IsCanonicalEntry, IsCanonicalVote, IsCanonicalImage, IsCanonicalRecord, second_format};
ghost use Rattle.pf_entry.specs.Lists.{Every};
ghost use Rattle.pf_entry.specs.Sets as set;
ghost use Rattle.pf_entry.specs.StartMaps.{start_rows};
ghost use Rattle.pf_entry.specs.declared.records.Record.TheVariants.{Image as ImageRecord};
ghost use Rattle.pf_codec.specs.Spelling.{number, name_bytes, op_bytes, entry_bytes, entries_bytes, start_bytes, starts_bytes, slots_bytes, sectors_bytes, vote_bytes, log_bytes, record_kind, payload_bytes, body_bytes};

use crate::bodies::{ENTRY, IMAGE, MERGED, TERM, begin_body, end_body};
use crate::sizes::payload_size;
use crate::{ThinSectors, Writer};
use pf_base::{NoMemory, Slot, Term};
use pf_entry::{Entry, Named, Op, Record, Slots, Start, Starts, VoteLog};
use std::alloc::Global;

#[tactic(auto, using(std::proofs::lemmas::List::append_assoc), unfolding(crate::specs::Spelling::name_bytes))]
fn write_name(writer: &mut Writer, name: &Named) -> Result<(), NoMemory>
    ensures { OnOk result (writer.new ≡ writer.old ++ name_bytes name.now) }
{
    writer.u64(name.slot)?;
    writer.range(name.range)
}

fn write_names(writer: &mut Writer, look: &[Named]) -> Result<(), NoMemory>
    ensures { OnOk result (writer.new ≡ writer.old ++ flat_map name_bytes look.now) }
{
    for name in look {
        write_name(writer, name)?;
    }
    Ok(())
}

#[tactic(auto, using(std::proofs::lemmas::List::append_assoc), unfolding(crate::specs::Spelling::op_bytes))]
fn write_op(writer: &mut Writer, op: &Op) -> Result<(), NoMemory>
    ensures { OnOk result (writer.new ≡ writer.old ++ op_bytes op.now) }
{
    match op {
        Op::Noop => writer.u8(0),
        Op::Mark => writer.u8(2),
        Op::Write { range, payload } => {
            writer.u8(1)?;
            writer.range(*range)?;
            writer.payload(payload)
        }
    }
}

/// Writes an entry at the end. The one error of this and the other writers is `NoMemory` (1).
#[tactic(auto, using(std::proofs::lemmas::List::append_assoc), unfolding(crate::specs::Spelling::entry_bytes))]
pub fn write_entry(writer: &mut Writer, entry: &Entry) -> Result<(), NoMemory>
    requires { IsCanonicalEntry second_format entry.now }
    ensures { OnOk result (writer.new ≡ writer.old ++ entry_bytes entry.now) }
{
    let look = entry.look.as_slice();
    writer.u64(entry.slot)?;
    writer.u64(entry.term)?;
    writer.u64(entry.first)?;
    writer.u8(look.len() as u8)?;
    write_names(writer, look)?;
    write_op(writer, &entry.op)
}

fn write_row(writer: &mut Writer, entries: &[Entry]) -> Result<(), NoMemory>
    requires { Every (IsCanonicalEntry second_format) entries.now }
    ensures { OnOk result (writer.new ≡ writer.old ++ flat_map entry_bytes entries.now) }
{
    for entry in entries {
        write_entry(writer, entry)?;
    }
    Ok(())
}

#[tactic(auto, using(std::proofs::lemmas::List::append_assoc), unfolding(crate::specs::Spelling::entries_bytes))]
fn write_entries(writer: &mut Writer, entries: &[Entry]) -> Result<(), NoMemory>
    requires few { length entries.now < 2 ^ 32 }
    requires canonical { Every (IsCanonicalEntry second_format) entries.now }
    ensures { OnOk result (writer.new ≡ writer.old ++ entries_bytes entries.now) }
{
    writer.u32(entries.len() as u32)?;
    write_row(writer, entries)
}

/// The payload of the record of merged entries and the first new slot.
#[tactic(auto, using(std::proofs::lemmas::List::append_assoc))]
pub(crate) fn write_merged(
    writer: &mut Writer,
    term: Term,
    first: Slot,
    entries: &[Entry],
) -> Result<(), NoMemory>
    requires few { length entries.now < 2 ^ 32 }
    requires canonical { Every (IsCanonicalEntry second_format) entries.now }
    ensures { OnOk result (writer.new ≡ writer.old ++ (number w64 term ++ (number w64 first ++ entries_bytes entries.now))) }
{
    writer.u64(term)?;
    writer.u64(first)?;
    write_entries(writer, entries)
}

/// The log of a vote.
fn write_log(writer: &mut Writer, vote: &VoteLog) -> Result<(), NoMemory>
    requires { IsCanonicalVote second_format vote.now }
    ensures { OnOk result (writer.new ≡ writer.old ++ log_bytes vote.now.log) }
{
    write_entries(writer, vote.log.as_slice())
}

#[tactic(auto, using(std::proofs::lemmas::List::append_assoc), unfolding(crate::specs::Spelling::start_bytes))]
fn write_start(writer: &mut Writer, row: &Start) -> Result<(), NoMemory>
    ensures { OnOk result (writer.new ≡ writer.old ++ start_bytes (row.now.term, row.now.first)) }
{
    writer.u64(row.term)?;
    writer.u64(row.first)
}

fn write_start_row(writer: &mut Writer, rows: &[Start]) -> Result<(), NoMemory>
    ensures { OnOk result (writer.new ≡ writer.old ++ flat_map start_bytes (start_rows rows.now)) }
{
    for row in rows {
        write_start(writer, row)?;
    }
    Ok(())
}

fn write_starts(writer: &mut Writer, starts: &Starts) -> Result<(), NoMemory>
    requires { finite.len starts.now < 2 ^ 16 }
    ensures { OnOk result (writer.new ≡ writer.old ++ starts_bytes starts.now) }
{
    let rows = starts.as_slice();
    writer.u16(rows.len() as u16)?;
    write_start_row(writer, rows)
}

fn write_slot_row(writer: &mut Writer, slots: &[Slot]) -> Result<(), NoMemory>
    ensures { OnOk result (writer.new ≡ writer.old ++ flat_map (number w64) slots.now) }
{
    for slot in slots {
        writer.u64(*slot)?;
    }
    Ok(())
}

/// Writes slots at the end.
pub fn write_slots(writer: &mut Writer, slots: &Slots) -> Result<(), NoMemory>
    requires { set.len slots.now < 2 ^ 32 }
    ensures { OnOk result (writer.new ≡ writer.old ++ slots_bytes slots.now) }
{
    let slots = slots.as_slice();
    writer.u32(slots.len() as u32)?;
    write_slot_row(writer, slots)
}

/// Writes the sectors of a chunk at the end.
#[tactic(auto, using(std::proofs::lemmas::List::append_assoc), unfolding(crate::specs::Spelling::sectors_bytes))]
pub fn write_sectors(writer: &mut Writer, sectors: &ThinSectors) -> Result<(), NoMemory>
    requires { length sectors.now ≤ 4096 }
    ensures { OnOk result (writer.new ≡ writer.old ++ sectors_bytes sectors.now) }
{
    writer.u32(sectors.len() as u32)?;
    writer.sectors(sectors)
}

/// Writes a vote at the end.
#[tactic(auto, using(std::proofs::lemmas::List::append_assoc), unfolding(crate::specs::Spelling::vote_bytes))]
pub fn write_vote(writer: &mut Writer, vote: &VoteLog) -> Result<(), NoMemory>
    requires { IsCanonicalVote second_format vote.now }
    ensures { OnOk result (writer.new ≡ writer.old ++ vote_bytes vote.now) }
{
    writer.u64(vote.base)?;
    write_starts(writer, &vote.starts)?;
    write_log(writer, vote)
}

/// An image without its generation and its term.
#[tactic(auto, using(std::proofs::lemmas::List::append_assoc))]
fn write_state(
    writer: &mut Writer,
    vote: &VoteLog,
    applied: &Slots,
    sectors: &ThinSectors,
) -> Result<(), NoMemory>
    requires vote { IsCanonicalVote second_format vote.now }
    requires image { IsCanonicalImage vote.now.base applied.now sectors.now }
    ensures { OnOk result (writer.new ≡ writer.old ++ (number w64 vote.now.base
        ++ (starts_bytes vote.now.starts ++ (slots_bytes applied.now ++ (log_bytes vote.now.log ++ sectors_bytes sectors.now))))) }
{
    writer.u64(vote.base)?;
    write_starts(writer, &vote.starts)?;
    write_slots(writer, applied)?;
    write_log(writer, vote)?;
    write_sectors(writer, sectors)
}

/// The payload of the record of an image.
#[tactic(auto, using(std::proofs::lemmas::List::append_assoc), unfolding(crate::specs::Spelling::payload_bytes))]
pub(crate) fn write_image(
    writer: &mut Writer,
    generation: u64,
    term: Term,
    vote: &VoteLog,
    applied: &Slots,
    sectors: &ThinSectors,
) -> Result<(), NoMemory>
    requires vote { IsCanonicalVote second_format vote.now }
    requires image { IsCanonicalImage vote.now.base applied.now sectors.now }
    ensures { OnOk result (writer.new ≡ writer.old ++ payload_bytes (ImageRecord generation term vote.now applied.now sectors.now)) }
{
    writer.u64(generation)?;
    writer.u64(term)?;
    write_state(writer, vote, applied, sectors)
}

#[tactic(auto, using(std::proofs::lemmas::List::append_assoc), unfolding(crate::specs::Spelling::payload_bytes))]
fn write_payload(writer: &mut Writer, rec: &Record) -> Result<(), NoMemory>
    requires { IsCanonicalRecord 2 rec.now }
    ensures { OnOk result (writer.new ≡ writer.old ++ payload_bytes rec.now) }
{
    match rec {
        Record::Image {
            generation,
            term,
            vote,
            applied,
            sectors,
        } => {
            let sectors = ThinSectors::all(sectors);
            write_image(writer, *generation, *term, vote, applied, &sectors)
        }
        Record::Term(term) => writer.u64(*term),
        Record::Entry(entry) => write_entry(writer, entry),
        Record::Merged {
            term,
            first,
            entries,
        } => write_merged(writer, *term, *first, entries.as_slice()),
    }
}

/// The body of a record: its kind, the length of its payload in four bytes, its payload, and the closed gate of the record
/// after it. It is as long as its size says. The one error is `NoMemory` (1).
#[tactic(auto, using(std::proofs::lemmas::List::append_assoc), unfolding(crate::specs::Spelling::body_bytes))]
pub fn spell_record(alloc: Global, rec: &Record) -> Result<Vec<u8>, NoMemory>
    requires { IsCanonicalRecord 2 rec.now }
    ensures { IfOk result (λ bytes. bytes.items ≡ body_bytes rec.now) }
{
    let mut body = begin_body(Vec::new(alloc), kind_of(rec), payload_size(rec))?;
    write_payload(&mut body, rec)?;
    end_body(body)
}

/// The number of a record's kind.
fn kind_of(rec: &Record) -> u8
    ensures { result ≡ record_kind rec.now }
{
    match rec {
        Record::Image {
            generation: _,
            term: _,
            vote: _,
            applied: _,
            sectors: _,
        } => IMAGE,
        Record::Term(_) => TERM,
        Record::Entry(_) => ENTRY,
        Record::Merged {
            term: _,
            first: _,
            entries: _,
        } => MERGED,
    }
}
