//! Tests of the state that was read.
ghost use Rattle.std.specs.Prelude.{◌≡◌, ◌↔◌, ◌<◌, ◌≤◌, ◌+◌, ◌^◌, ℕ, [], IfOk, IsTrue, length, map, true};
ghost use Rattle.pf_base.specs.Span.{IsWritable, is_span};
ghost use Rattle.pf_entry.specs.Lists.{Every};
ghost use Rattle.pf_entry.specs.Tables.{ascends};
ghost use Rattle.std.specs.FinMap as finite;
ghost use Rattle.pf_protocol.specs.Fitting.{NameFits, OpFits, SectorsFit};
ghost use Rattle.pf_server_restart.specs.Beginning.{setup_of_seat};
ghost use Rattle.pf_server_restart.specs.Recovering.{SlotIsPlaced, state_in};
ghost use Rattle.pf_server_restart.specs.Testing.{AreApplied, AreInPlace, AreNumbers, AreStarts, IsContent, LookPasses, TermIsLow, EntryPasses, IsSoundAt, JudgesState};

use crate::Seat;
use crate::recovery::{Recovered, has_place};
use pf_base::{HALF_BYTES, NoMemory, Range, Sector, Sectors, Slot, Term};
use pf_entry::{Entry, Named, Op, Slots, Start};
use pf_holes::HoleLog;
use pf_server_tables::StartTable;
use std::alloc::Global;

/// The first number that no term, checkpoint, generation or first slot reaches.
const END: u64 = 1 << 63;

/// The most starts: a group has 64 elections after its first term.
const STARTS: usize = 65;

/// Whether a write or a read may name the range.
fn is_writable(range: &Range) -> bool
    ensures { IsTrue result ↔ IsWritable range.now.first range.now.count }
{
    Range::new(range.first(), range.count()).is_ok()
}

/// Whether an entry may name the range.
fn is_range(range: &Range) -> bool
    ensures { result ≡ is_span range.now }
{
    is_writable(range) || *range == Range::none() || *range == Range::all()
}

/// Whether an entry of this slot may name another by this.
fn is_name(seat: &Seat, slot: Slot, named: &Named) -> bool
    ensures { IsTrue result ↔ NameFits (setup_of_seat seat.now) slot named.now }
{
    named.slot < slot
        && is_range(&named.range)
        && named.range.fits(seat.sectors)
        && (seat.format == 2 || named.range != Range::all())
}

/// Whether each sector has 512 bytes: its type says so, and the list that contracts see does not.
fn are_sectors(sectors: &[Sector]) -> bool
    ensures { IsTrue result ↔ Every (λ bytes. length bytes ≡ 512) sectors.now }
{
    sectors.iter().all(|sector| sector.len() == 512)
}

/// Whether a log of the seat's volume may have the op.
fn is_op(seat: &Seat, op: &Op) -> bool
    ensures { IsTrue result ↔ OpFits (setup_of_seat seat.now) op.now }
{
    match op {
        Op::Write { range, payload } => {
            is_writable(range)
                && payload.len() == range.count() as usize
                && range.fits(seat.sectors)
                && are_sectors(payload.as_slice())
        }
        Op::Noop => true,
        Op::Mark => seat.format == 2,
    }
}

/// Whether each name is of a slot above that of the name before it.
fn ascend(look: &[Named]) -> bool
    ensures { result ≡ ascends (map (λ m. m.slot) look.now) }
{
    let mut last = None;
    for named in look {
        if last.is_some_and(|before| named.slot <= before) {
            return false;
        }
        last = Some(named.slot);
    }
    true
}

/// Whether a term and its first slot are in their bounds.
fn is_low(term: Term, first: Slot) -> bool
    ensures { IsTrue result ↔ TermIsLow term first }
{
    1 <= term && term < END && 1 <= first && first < END
}

/// Whether an entry of this slot may have each of these names.
fn are_names(seat: &Seat, slot: Slot, look: &[Named]) -> bool
    ensures { IsTrue result ↔ Every (NameFits (setup_of_seat seat.now) slot) look.now }
{
    for named in look {
        if !is_name(seat, slot, named) {
            return false;
        }
    }
    true
}

/// Whether an entry of this slot may have this list of names.
fn is_look(seat: &Seat, slot: Slot, look: &[Named]) -> bool
    ensures { IsTrue result ↔ LookPasses (setup_of_seat seat.now) slot look.now }
{
    look.len() <= seat.names as usize && are_names(seat, slot, look) && ascend(look)
}

/// Whether a merged entry has no names.
fn is_bare_if_merged(entry: &Entry) -> bool
    ensures { IsTrue result ↔ (entry.now.slot < entry.now.first → entry.now.look ≡ []) }
{
    entry.first <= entry.slot || entry.look.as_slice().is_empty()
}

/// Whether a log of the seat's volume may have the entry, where its slot has a place.
fn is_entry(seat: &Seat, entry: &Entry) -> bool
    ensures { IsTrue result ↔ EntryPasses (setup_of_seat seat.now) entry.now }
{
    is_low(entry.term, entry.first)
        && is_bare_if_merged(entry)
        && is_look(seat, entry.slot, entry.look.as_slice())
        && is_op(seat, &entry.op)
}

/// Whether the slot has no entry, or one that passes.
fn is_sound_at(seat: &Seat, log: &HoleLog, slot: Slot) -> bool
    ensures { IsTrue result ↔ IsSoundAt (setup_of_seat seat.now) slot (finite.get log.now.entries slot) }
{
    match log.get(slot) {
        Some(entry) => is_entry(seat, entry),
        None => true,
    }
}

/// Whether a log of the seat's volume may have these entries.
fn is_log(seat: &Seat, log: &HoleLog) -> bool
    requires { log.now.base < 2 ^ 63 }
    ensures { IsTrue result ↔ AreInPlace (setup_of_seat seat.now) log.now.base log.now.entries }
{
    let base = log.base();
    for passed in 0..4096 {
        if !is_sound_at(seat, log, base + passed + 1) {
            return false;
        }
    }
    true
}

/// Whether the terms and first slots are in their bounds.
fn are_low(starts: &[Start]) -> bool
    ensures { IsTrue result ↔ Every (λ row. TermIsLow row.term row.first) starts.now }
{
    starts.iter().all(|start| is_low(start.term, start.first))
}

/// Whether these are the starts of a group.
fn are_starts(alloc: Global, starts: &StartTable) -> Result<bool, NoMemory>
    ensures { IfOk result (λ passes. IsTrue passes ↔ AreStarts starts.now.starts) }
{
    if starts.len() > STARTS {
        return Ok(false);
    }
    let rows = starts.copied(alloc)?;
    Ok(are_low(rows.as_slice()))
}

/// Whether each slot is one of the 4,096 above the checkpoint.
fn are_placed(base: Slot, slots: &[Slot]) -> bool
    ensures { IsTrue result ↔ Every (SlotIsPlaced base) slots.now }
{
    slots.iter().all(|slot| has_place(base, *slot))
}

/// Whether each applied slot is one of the 4,096 above the checkpoint.
fn are_applied(base: Slot, applied: &Slots) -> bool
    ensures { IsTrue result ↔ AreApplied base applied.now }
{
    are_placed(base, applied.as_slice())
}

/// Whether these are the sectors of the seat's chunk.
fn are_chunk(seat: &Seat, sectors: &Sectors) -> bool
    ensures { IsTrue result ↔ SectorsFit (setup_of_seat seat.now) sectors.now }
{
    let sectors = sectors.as_slice();
    sectors.len() == seat.sectors as usize && are_sectors(sectors)
}

/// Whether the numbers are in their bounds, and the format is one that the seat's halves have.
fn are_numbers(seat: &Seat, tables: &Recovered) -> bool
    ensures { IsTrue result ↔ AreNumbers (setup_of_seat seat.now) (state_in tables.now) }
{
    (tables.format == 2 || tables.format == seat.format)
        && tables.used <= HALF_BYTES
        && tables.generation < END
        && 1 <= tables.term
        && tables.term < END
        && tables.log.base() < END
}

/// Whether the log, the applied slots and the sectors fit.
fn is_content(seat: &Seat, tables: &Recovered) -> bool
    requires { tables.now.log.base < 2 ^ 63 }
    ensures { IsTrue result ↔ IsContent (setup_of_seat seat.now) (state_in tables.now) }
{
    if !is_log(seat, &tables.log) {
        return false;
    }
    if !are_applied(tables.log.base(), &tables.applied) {
        return false;
    }
    are_chunk(seat, &tables.sectors)
}

/// Whether a server may begin from what was read.
pub fn fits(alloc: Global, seat: &Seat, tables: &Recovered) -> Result<bool, NoMemory>
    ensures { IfOk result (JudgesState (setup_of_seat seat.now) (state_in tables.now)) }
{
    if !are_numbers(seat, tables) {
        return Ok(false);
    }
    if !is_content(seat, tables) {
        return Ok(false);
    }
    are_starts(alloc, &tables.starts)
}
