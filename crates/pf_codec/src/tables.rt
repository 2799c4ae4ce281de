//! Starts, slots and sectors at the front of bytes.
ghost use Rattle.std.specs.Prelude.{◌≡◌, nat_lt};
ghost use Rattle.std.specs.Int.{w64};
ghost use Rattle.std.specs.List.{list_all};
ghost use Rattle.pf_codec.specs.Parsers.{ParserGives, number_at, row_at};
ghost use Rattle.pf_codec.specs.Reading.{start_at, starts_at, slots_at, is_chunk, sectors_at};

use crate::keys::ascend;
use crate::{ByteReader, ReadFault};
use pf_base::{Sectors, Slot};
use pf_entry::{Slots, Start, Starts};
use std::alloc::Global;

#[tactic(auto, unfolding(crate::specs::Reading::start_at, crate::specs::Parsers::followed_by, crate::specs::Parsers::checked))]
fn read_start(reader: &mut ByteReader) -> Result<Start, ReadFault>
    ensures { ParserGives (λ start. start) result reader.new (start_at reader.old) }
{
    let term = reader.u64()?;
    let first = reader.u64()?;
    Ok(Start { term, first })
}

fn read_start_row(
    alloc: Global,
    reader: &mut ByteReader,
    count: u16,
) -> Result<Vec<Start>, ReadFault>
    ensures { ParserGives (λ rows. rows.items) result reader.new (row_at start_at count reader.old) }
{
    let mut rows = Vec::new(alloc);
    for _ in 0..count {
        let row = read_start(reader)?;
        rows.push(row)?;
    }
    Ok(rows)
}

/// A count, and as many starts, whose terms ascend.
#[tactic(auto, unfolding(crate::specs::Reading::starts_at, crate::specs::Parsers::followed_by, crate::specs::Parsers::checked))]
pub(crate) fn read_starts(alloc: Global, reader: &mut ByteReader) -> Result<Starts, ReadFault>
    ensures { ParserGives (λ starts. starts) result reader.new (starts_at reader.old) }
{
    let count = reader.u16()?;
    let rows = read_start_row(alloc, reader, count)?;
    if !ascend(&rows) {
        return Err(ReadFault::Malformed);
    }
    Ok(Starts::new(rows))
}

fn read_slot_row(alloc: Global, reader: &mut ByteReader, count: u32) -> Result<Vec<Slot>, ReadFault>
    ensures { ParserGives (λ slots. slots.items) result reader.new (row_at (number_at w64) count reader.old) }
{
    let mut slots = Vec::new(alloc);
    for _ in 0..count {
        let slot = reader.u64()?;
        slots.push(slot)?;
    }
    Ok(slots)
}

fn are_above(base: Slot, slots: &[Slot]) -> bool
    ensures { result ≡ list_all (nat_lt base) slots.now }
{
    slots.iter().all(|slot| base < *slot)
}

/// A count, and as many slots above the checkpoint `base`, which ascend; `Malformed` where none such stand at the front, and
/// `NoMemory` (1) where memory has run out.
#[tactic(auto, unfolding(crate::specs::Reading::slots_at, crate::specs::Parsers::followed_by, crate::specs::Parsers::checked))]
pub fn read_slots(alloc: Global, reader: &mut ByteReader, base: Slot) -> Result<Slots, ReadFault>
    ensures { ParserGives (λ slots. slots) result reader.new (slots_at base reader.old) }
{
    let count = reader.u32()?;
    let slots = read_slot_row(alloc, reader, count)?;
    if !(ascend(&slots) && are_above(base, &slots)) {
        return Err(ReadFault::Malformed);
    }
    Ok(Slots::new(slots))
}

/// Whether a chunk may have so many sectors: 16 to 4,096, and a multiple of 8.
fn is_chunk(count: u32) -> bool
    ensures { result ≡ is_chunk count }
{
    (16..=4096).contains(&count) && count % 8 == 0
}

/// A count, and the sectors of a chunk: 16 to 4,096 of them, a multiple of 8. `Malformed` where none such stand at the front,
/// and `NoMemory` (1) where memory has run out.
#[tactic(auto, unfolding(crate::specs::Reading::sectors_at, crate::specs::Parsers::followed_by))]
pub fn read_sectors(alloc: Global, reader: &mut ByteReader) -> Result<Sectors, ReadFault>
    ensures { ParserGives (λ sectors. sectors) result reader.new (sectors_at reader.old) }
{
    let count = reader.u32()?;
    if !is_chunk(count) {
        return Err(ReadFault::Malformed);
    }
    let sectors = reader.sectors(alloc, count)?;
    Ok(Sectors::new(sectors))
}
