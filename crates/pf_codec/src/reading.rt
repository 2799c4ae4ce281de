//! Records that are the whole of a payload.
ghost use Rattle.std.specs.Prelude.{◌≡◌, ◌≢◌, IfOk, IfSome, IfNone, Some};
ghost use Rattle.pf_entry.specs.Canonical.{IsCanonicalRecord};
ghost use Rattle.pf_entry.specs.declared.records.Record.{Record};
ghost use Rattle.pf_codec.specs.Fitting.{RecordFits};
ghost use Rattle.pf_codec.specs.Parsers.{ParserGives, GivesAll};
ghost use Rattle.pf_codec.specs.Spelling.{record_kind, payload_bytes};
ghost use Rattle.pf_codec.specs.Reading.{image_at, term_at, entry_record_at, merged_at, payload_at, record_in};

use crate::entries::{read_entries, read_entry};
use crate::spelled::are_bytes;
use crate::tables::{read_sectors, read_slots, read_starts};
use crate::votes::read_log;
use crate::{Bounds, ByteReader, ReadFault};
use pf_base::{NoMemory, Piece};
use pf_entry::{Entries, Record, VoteLog};
use std::alloc::Global;

#[tactic(auto, unfolding(crate::specs::Reading::image_at, crate::specs::Parsers::followed_by, crate::specs::Parsers::checked))]
fn read_image(alloc: Global, reader: &mut ByteReader, bounds: Bounds) -> Result<Record, ReadFault>
    ensures { ParserGives (λ r. r) result reader.new (image_at bounds reader.old) }
{
    let generation = reader.u64()?;
    let term = reader.u64()?;
    let base = reader.u64()?;
    let starts = read_starts(alloc, reader)?;
    let applied = read_slots(alloc, reader, base)?;
    let log = read_log(alloc, reader, bounds, base)?;
    let sectors = read_sectors(alloc, reader)?;
    Ok(Record::Image {
        generation,
        term,
        vote: VoteLog { base, starts, log },
        applied,
        sectors,
    })
}

#[tactic(auto, unfolding(crate::specs::Reading::term_at, crate::specs::Parsers::followed_by, crate::specs::Parsers::checked))]
fn read_term(reader: &mut ByteReader) -> Result<Record, ReadFault>
    ensures { ParserGives (λ r. r) result reader.new (term_at reader.old) }
{
    let term = reader.u64()?;
    Ok(Record::Term(term))
}

#[tactic(auto, unfolding(crate::specs::Reading::entry_record_at, crate::specs::Parsers::followed_by, crate::specs::Parsers::checked))]
fn read_entry_record(
    alloc: Global,
    reader: &mut ByteReader,
    bounds: Bounds,
) -> Result<Record, ReadFault>
    ensures { ParserGives (λ r. r) result reader.new (entry_record_at bounds reader.old) }
{
    let entry = read_entry(alloc, reader, bounds)?;
    Ok(Record::Entry(entry))
}

#[tactic(auto, unfolding(crate::specs::Reading::merged_at, crate::specs::Parsers::followed_by, crate::specs::Parsers::checked))]
fn read_merged(alloc: Global, reader: &mut ByteReader, bounds: Bounds) -> Result<Record, ReadFault>
    ensures { ParserGives (λ r. r) result reader.new (merged_at bounds reader.old) }
{
    let term = reader.u64()?;
    let first = reader.u64()?;
    let entries = Entries::new(read_entries(alloc, reader, bounds)?);
    Ok(Record::Merged {
        term,
        first,
        entries,
    })
}

/// The payload of a record of this kind.
#[tactic(auto, unfolding(crate::specs::Reading::payload_at))]
fn read_payload(
    alloc: Global,
    reader: &mut ByteReader,
    bounds: Bounds,
    kind: u8,
) -> Result<Record, ReadFault>
    ensures { ParserGives (λ r. r) result reader.new (payload_at bounds kind reader.old) }
{
    match kind {
        1 => read_image(alloc, reader, bounds),
        2 => read_term(reader),
        3 => read_entry_record(alloc, reader, bounds),
        4 => read_merged(alloc, reader, bounds),
        _ => Err(ReadFault::Malformed),
    }
}

/// The record whose payload is all of these bytes.
#[tactic(auto, unfolding(crate::specs::Reading::record_in))]
fn read_whole(alloc: Global, bounds: Bounds, kind: u8, payload: &Piece) -> Result<Record, ReadFault>
    ensures { GivesAll (λ r. r) result (record_in bounds kind payload.now) }
{
    let mut reader = ByteReader::among(payload);
    let record = read_payload(alloc, &mut reader, bounds, kind)?;
    if !reader.is_at_end() {
        return Err(ReadFault::Malformed);
    }
    Ok(record)
}

/// The longest payload, in bytes: its length has four bytes.
const LONGEST: usize = u32::MAX as usize;

/// The record of this kind whose payload these bytes are, in format 1 or 2; `None` where no record that is canonical in
/// that format is spelled so. The kinds are 1 for an image, 2 for a term, 3 for an entry and 4 for merged entries; any
/// format but 1 counts as 2. The sectors of writes are shared with the bytes, and not copied. The one error is
/// `NoMemory` (1).
pub fn read_record(
    alloc: Global,
    format: u8,
    kind: u8,
    payload: &Piece,
) -> Result<Option<Record>, NoMemory>
    ensures canonical { IfOk result (λ found. IfSome found (λ r. IsCanonicalRecord format r)) }
    ensures of_kind { IfOk result (λ found. IfSome found (λ r. record_kind r ≡ kind)) }
    ensures payload { IfOk result (λ found. IfSome found (λ r. payload_bytes r ≡ payload.now)) }
    ensures fits { IfOk result (λ found. IfSome found RecordFits) }
    ensures only { (r : Record) → RecordFits r → IsCanonicalRecord format r → record_kind r ≡ kind → payload_bytes r ≡ payload.now
        → IfOk result (λ found. found ≡ Some r) }
    ensures none { IfOk result (λ found. IfNone found ((r : Record) → RecordFits r → IsCanonicalRecord format r → record_kind r ≡ kind
        → payload_bytes r ≢ payload.now)) }
{
    let bytes = payload.as_slice();
    are_bytes(bytes);
    if bytes.len() > LONGEST {
        return Ok(None);
    }
    match read_whole(alloc, Bounds::of_format(format), kind, payload) {
        Ok(record) => Ok(Some(record)),
        Err(ReadFault::Malformed) => Ok(None),
        Err(ReadFault::NoMemory) => Err(NoMemory),
    }
}
