//! Entries at the front of bytes.
ghost use Rattle.std.specs.Prelude.{◌≡◌, ◌≤◌};
ghost use Rattle.std.specs.List.{list_all};
ghost use Rattle.pf_codec.specs.Parsers.{ParserGives, row_at};
ghost use Rattle.pf_codec.specs.Reading.{name_at, sectors_of, write_at, op_tagged, op_at, allows, may_name, are_names, is_entry, entry_at, entries_at};

use crate::keys::ascend;
use crate::{Bounds, ByteReader, ReadFault};
use pf_base::{Range, Slot};
use pf_entry::{Entry, Look, Named, Op};
use std::alloc::Global;

/// The count of a range that is the whole chunk.
const WHOLE: u32 = 255;

/// A named slot with its range.
#[tactic(auto, unfolding(crate::specs::Reading::name_at, crate::specs::Parsers::followed_by, crate::specs::Parsers::checked))]
fn read_name(reader: &mut ByteReader) -> Result<Named, ReadFault>
    ensures { ParserGives (λ name. name) result reader.new (name_at reader.old) }
{
    let slot = reader.u64()?;
    let range = reader.range()?;
    Ok(Named { slot, range })
}

/// So many named slots.
fn read_names(alloc: Global, reader: &mut ByteReader, count: u8) -> Result<Look, ReadFault>
    ensures { ParserGives (λ names. names) result reader.new (row_at name_at count reader.old) }
{
    let mut names = Look::with_room(alloc, count as usize)?;
    for _ in 0..count {
        let name = read_name(reader)?;
        names.push(name)?;
    }
    Ok(names)
}

/// The write of the sectors at the front, as many as the range has.
#[tactic(auto, unfolding(crate::specs::Reading::sectors_of, crate::specs::Parsers::followed_by, crate::specs::Parsers::checked))]
fn read_payload(alloc: Global, reader: &mut ByteReader, range: Range) -> Result<Op, ReadFault>
    requires some { 1 ≤ range.count }
    requires few { range.count ≤ 8 }
    ensures { ParserGives (λ op. op) result reader.new (sectors_of range reader.old) }
{
    let payload = reader.payload(alloc, range.count())?;
    Ok(Op::Write { range, payload })
}

/// A write without its tag.
#[tactic(auto, unfolding(crate::specs::Reading::write_at, crate::specs::Parsers::followed_by))]
fn read_write(alloc: Global, reader: &mut ByteReader) -> Result<Op, ReadFault>
    ensures { ParserGives (λ op. op) result reader.new (write_at reader.old) }
{
    let range = reader.range()?;
    if range.count() > 0 && range.count() <= 8 {
        read_payload(alloc, reader, range)
    } else {
        Err(ReadFault::Malformed)
    }
}

/// An op without its tag.
#[tactic(auto, unfolding(crate::specs::Reading::op_tagged, crate::specs::Parsers::checked))]
fn read_op_tagged(alloc: Global, reader: &mut ByteReader, tag: u8) -> Result<Op, ReadFault>
    ensures { ParserGives (λ op. op) result reader.new (op_tagged tag reader.old) }
{
    match tag {
        0 => Ok(Op::Noop),
        1 => read_write(alloc, reader),
        2 => Ok(Op::Mark),
        _ => Err(ReadFault::Malformed),
    }
}

/// An op.
#[tactic(auto, unfolding(crate::specs::Reading::op_at, crate::specs::Parsers::followed_by))]
fn read_op(alloc: Global, reader: &mut ByteReader) -> Result<Op, ReadFault>
    ensures { ParserGives (λ op. op) result reader.new (op_at reader.old) }
{
    let tag = reader.u8()?;
    read_op_tagged(alloc, reader, tag)
}

/// Whether the format has room for the op.
fn allows(bounds: Bounds, op: &Op) -> bool
    ensures { result ≡ allows bounds op.now }
{
    match op {
        Op::Write {
            range: _,
            payload: _,
        } => true,
        Op::Noop => true,
        Op::Mark => bounds.has_marks(),
    }
}

/// Whether an entry of this slot may name these slots and ranges.
#[tactic(auto, unfolding(crate::specs::Reading::are_names))]
fn are_names(bounds: Bounds, slot: Slot, look: &[Named]) -> bool
    ensures { result ≡ are_names bounds slot look.now }
{
    ascend(look) && are_allowed(bounds.has_marks(), slot, look)
}

fn are_allowed(has_marks: bool, slot: Slot, look: &[Named]) -> bool
    ensures { result ≡ list_all (may_name has_marks slot) look.now }
{
    look.iter().all(|name| name.slot < slot && (name.range.count() != WHOLE || has_marks))
}

/// Whether the entry is canonical, apart from what its types say.
#[tactic(auto, unfolding(crate::specs::Reading::is_entry))]
fn is_canonical(bounds: Bounds, entry: &Entry) -> bool
    ensures { result ≡ is_entry bounds entry.now }
{
    let look = entry.look.as_slice();
    entry.slot >= 1
        && entry.term >= 1
        && entry.first >= 1
        && look.len() <= bounds.names()
        && (entry.first <= entry.slot || look.is_empty())
        && allows(bounds, &entry.op)
        && are_names(bounds, entry.slot, look)
}

/// An entry that is canonical within these bounds; `Malformed` where no such entry's spelling stands at the front, and
/// `NoMemory` (1) where memory has run out.
#[tactic(auto, unfolding(crate::specs::Reading::entry_at, crate::specs::Parsers::followed_by, crate::specs::Parsers::checked))]
pub fn read_entry(
    alloc: Global,
    reader: &mut ByteReader,
    bounds: Bounds,
) -> Result<Entry, ReadFault>
    ensures { ParserGives (λ entry. entry) result reader.new (entry_at bounds reader.old) }
{
    let slot = reader.u64()?;
    let term = reader.u64()?;
    let first = reader.u64()?;
    let count = reader.u8()?;
    let look = read_names(alloc, reader, count)?;
    let op = read_op(alloc, reader)?;
    let entry = Entry {
        slot,
        term,
        first,
        look,
        op,
    };
    if !is_canonical(bounds, &entry) {
        return Err(ReadFault::Malformed);
    }
    Ok(entry)
}

/// So many entries.
fn read_row(
    alloc: Global,
    reader: &mut ByteReader,
    bounds: Bounds,
    count: u32,
) -> Result<Vec<Entry>, ReadFault>
    ensures { ParserGives (λ entries. entries.items) result reader.new (row_at (entry_at bounds) count reader.old) }
{
    let mut entries = Vec::new(alloc);
    for _ in 0..count {
        let entry = read_entry(alloc, reader, bounds)?;
        entries.push(entry)?;
    }
    Ok(entries)
}

/// A count, and as many entries.
#[tactic(auto, unfolding(crate::specs::Reading::entries_at, crate::specs::Parsers::followed_by))]
pub(crate) fn read_entries(
    alloc: Global,
    reader: &mut ByteReader,
    bounds: Bounds,
) -> Result<Vec<Entry>, ReadFault>
    ensures { ParserGives (λ entries. entries.items) result reader.new (entries_at bounds reader.old) }
{
    let count = reader.u32()?;
    read_row(alloc, reader, bounds, count)
}
