//! Bytes that are read from the front.
ghost use Rattle.std.specs.Prelude.{◌≡◌, ◌↔◌, ◌≤◌, ◌*◌, ◌++◌, [], ℕ, if◌then◌else◌, IfOk, IfSome, IsTrue, length};
ghost use Rattle.std.specs.Int.{w16, w32, w64};
ghost use Rattle.std.specs.Option.{option_copied};
ghost use Rattle.std.specs.Simd.{first_chunks};
ghost use Rattle.pf_base.specs.Span.{is_span};
ghost use Rattle.pf_codec.specs.Parsers.{AreBytes, ParserGives, byte_at, bytes_at, number_at, row_at};
ghost use Rattle.pf_codec.specs.Reading.{range_at, sector_at};
ghost use Rattle.pf_codec.specs.Tails.{IsAmong, tail_bytes};

use crate::spelled::{are_whole, bytes_of};
use crate::{ReadFault, Spelled};
use pf_base::{Data, NoMemory, Payload, Piece, Range, SECTOR_BYTES, Sector, Sectors, Shared};
use std::alloc::Global;
use std::marker::Model;

/// The bytes that are still to be read. Each call takes a value from their front. It answers `Malformed` where no spelling of
/// such a value stands there, and calls that take memory `NoMemory` (1); after an `Err` the reader is of no more use.
#[derive(Drop)]
pub struct ByteReader<'a> {
    rest: &'a [u8],
    tail: Option<&'a Payload>,
    /// The shared bytes that `rest` is a part of, where it is one; it ends at byte `end` of them.
    whole: Option<&'a Shared>,
    end: usize,
}

impl<'a> Model for ByteReader<'a> {
    ghost use Rattle.std.specs.Prelude.{List, ℕ, ◌++◌};
    ghost use Rattle.std.specs.Option.{option_copied};
    ghost use Rattle.pf_codec.specs.Tails.{IsAmong, tail_bytes};

    ghost Value = { List ℕ };

    ghost view = { λ r. r.rest.now ++ tail_bytes (option_copied r.tail) };

    ghost invariant = { λ r. IsAmong r.rest.now (option_copied r.whole) r.end };
}

impl<'a> ByteReader<'a> {
    /// All of these bytes.
    pub fn new(bytes: &'a [u8]) -> ByteReader<'a>
        ensures { result ≡ bytes.now }
    {
        ByteReader {
            rest: bytes,
            tail: None,
            whole: None,
            end: 0,
        }
    }

    /// All of these bytes. The sectors of a write among them are shared, and not copied.
    pub(crate) fn among(piece: &Piece<'a>) -> ByteReader<'a>
        ensures { result ≡ piece.now }
    {
        let (whole, end) = piece.place();
        ByteReader {
            rest: piece.as_slice(),
            tail: None,
            whole: Some(whole),
            end,
        }
    }

    /// All of these bytes, of which the last may be shared.
    pub fn of(spelled: &'a Spelled) -> ByteReader<'a>
        ensures all { result ≡ spelled.now }
        ensures bytes { AreBytes spelled.now }
    {
        let (rest, tail) = spelled.parts();
        ByteReader {
            rest,
            tail,
            whole: None,
            end: 0,
        }
    }

    /// Whether all bytes were read.
    pub fn is_at_end(&self) -> bool
        ensures { IsTrue result ↔ (self.now ≡ []) }
    {
        let (bytes, _, _) = next_bytes(self.rest, self.tail, self.whole);
        bytes.is_empty()
    }

    /// A byte.
    pub fn u8(&mut self) -> Result<u8, ReadFault>
        ensures { ParserGives (λ n. n) result self.new (byte_at self.old) }
    {
        let (bytes, tail, whole) = next_bytes(self.rest, self.tail, self.whole);
        let Some((byte, rest)) = bytes.split_first() else {
            return Err(ReadFault::Malformed);
        };
        self.rest = rest;
        self.tail = tail;
        self.whole = whole;
        Ok(*byte)
    }

    /// A number in two bytes.
    pub fn u16(&mut self) -> Result<u16, ReadFault>
        ensures { ParserGives (λ n. n) result self.new (number_at w16 self.old) }
    {
        let field = self.field()?;
        Ok(u16::from_be_bytes(field))
    }

    /// A number in four bytes.
    pub fn u32(&mut self) -> Result<u32, ReadFault>
        ensures { ParserGives (λ n. n) result self.new (number_at w32 self.old) }
    {
        let field = self.field()?;
        Ok(u32::from_be_bytes(field))
    }

    /// A number in eight bytes.
    pub fn u64(&mut self) -> Result<u64, ReadFault>
        ensures { ParserGives (λ n. n) result self.new (number_at w64 self.old) }
    {
        let field = self.field()?;
        Ok(u64::from_be_bytes(field))
    }

    /// So many bytes.
    fn field<const N: usize>(&mut self) -> Result<[u8; N], ReadFault>
        ensures { ParserGives (λ field. field) result self.new (bytes_at N self.old) }
    {
        let Some((field, rest)) = self.rest.split_first_chunk() else {
            return self.field_by_bytes();
        };
        self.rest = rest;
        Ok(*field)
    }

    /// So many bytes, which do not lie in one piece.
    fn field_by_bytes<const N: usize>(&mut self) -> Result<[u8; N], ReadFault>
        ensures { ParserGives (λ field. field) result self.new (bytes_at N self.old) }
    {
        let mut field = [0u8; N];
        'bytes: for k in 0..N {
            let byte = self.u8()?;
            field[k] = byte;
        }
        Ok(field)
    }

    /// A range: empty at sector 0, of 1 to 8 sectors below 4,096, or the whole chunk.
    #[tactic(auto, unfolding(crate::specs::Reading::range_at, crate::specs::Parsers::followed_by, crate::specs::Parsers::checked))]
    pub(crate) fn range(&mut self) -> Result<Range, ReadFault>
        ensures { ParserGives (λ range. range) result self.new (range_at self.old) }
    {
        let first = self.u32()?;
        let count = self.u8()?;
        match range_of(first, count) {
            Some(range) => Ok(range),
            None => Err(ReadFault::Malformed),
        }
    }

    /// So many sectors.
    pub(crate) fn sectors(&mut self, alloc: Global, count: u32) -> Result<Vec<Sector>, ReadFault>
        ensures { ParserGives (λ sectors. sectors.items) result self.new (row_at sector_at count self.old) }
    {
        let wanted = count as usize;
        let (whole, _) = self.rest.as_chunks::<SECTOR_BYTES>();
        if whole.len() < wanted {
            return self.sectors_by_one(alloc, count);
        }
        let sectors = Vec::from_slice(alloc, &whole[..wanted])?;
        self.rest = &self.rest[SECTOR_BYTES * wanted..];
        Ok(sectors)
    }

    /// So many sectors, which do not lie in one piece.
    fn sectors_by_one(&mut self, alloc: Global, count: u32) -> Result<Vec<Sector>, ReadFault>
        ensures { ParserGives (λ sectors. sectors.items) result self.new (row_at sector_at count self.old) }
    {
        let mut sectors = Vec::new(alloc);
        for _ in 0..count {
            let sector = self.sector()?;
            sectors.push(sector)?;
        }
        Ok(sectors)
    }

    #[tactic(auto, unfolding(crate::specs::Reading::sector_at))]
    fn sector(&mut self) -> Result<Sector, ReadFault>
        ensures { ParserGives (λ sector. sector) result self.new (sector_at self.old) }
    {
        self.field()
    }

    /// So many sectors of a write. They are shared where the bytes are.
    pub(crate) fn payload(&mut self, alloc: Global, count: u32) -> Result<Payload, ReadFault>
        requires some { 1 ≤ count }
        requires few { count ≤ 8 }
        ensures { ParserGives (λ payload. payload) result self.new (row_at sector_at count self.old) }
    {
        if let Some(share) = share_of(self.rest, self.tail, count)? {
            self.rest = &[];
            self.tail = None;
            self.whole = None;
            return Ok(share);
        }
        if let Some(part) = part_of(alloc, self.rest, self.whole, self.end, count)? {
            self.rest = &self.rest[SECTOR_BYTES * count as usize..];
            return Ok(part);
        }
        let sectors = self.sectors(alloc, count)?;
        let payload = Payload::new(alloc, Data::from_sectors(Sectors::new(sectors)))?;
        Ok(payload)
    }
}

/// The bytes that are next, the sectors behind them, and what they are a part of: the first are empty only where nothing is left.
fn next_bytes<'a>(
    rest: &'a [u8],
    tail: Option<&'a Payload>,
    whole: Option<&'a Shared>,
) -> (&'a [u8], Option<&'a Payload>, Option<&'a Shared>)
    ensures same { result.0.now ++ tail_bytes (option_copied result.1) ≡ rest.now ++ tail_bytes (option_copied tail.entry) }
    ensures none { result.0.now ≡ [] → tail_bytes (option_copied result.1) ≡ [] }
    ensures among { (end : ℕ) → IsAmong rest.now (option_copied whole.entry) end → IsAmong result.0.now (option_copied result.2) end }
{
    if rest.is_empty() {
        (bytes_of(tail), None, None)
    } else {
        (rest, tail, whole)
    }
}

/// A share of so many sectors at the front, where there are as many in a row, and shared.
fn part_of(
    alloc: Global,
    rest: &[u8],
    whole: Option<&Shared>,
    end: usize,
    count: u32,
) -> Result<Option<Payload>, NoMemory>
    requires some { 1 ≤ count }
    requires few { count ≤ 8 }
    requires among { IsAmong rest.now (option_copied whole) end }
    ensures { IfOk result (λ found. IfSome found (λ part. (512 * count ≤ length rest.now) × (part ≡ first_chunks 512 count rest.now))) }
{
    let Some(whole) = whole else {
        return Ok(None);
    };
    if rest.len() < SECTOR_BYTES * count as usize {
        return Ok(None);
    }
    let from = end.saturating_sub(rest.len());
    let part = Payload::among(alloc, whole, from, count as usize)?;
    Ok(Some(part))
}

/// A share of the sectors, where they are all that is left and so many.
fn share_of(rest: &[u8], tail: Option<&Payload>, count: u32) -> Result<Option<Payload>, NoMemory>
    ensures { IfOk result (λ found. IfSome found (λ payload. row_at sector_at count (rest.now ++ tail_bytes (option_copied tail.entry)) ≡ Some (payload, []))) }
{
    let Some(payload) = tail else {
        return Ok(None);
    };
    if !rest.is_empty() {
        return Ok(None);
    }
    if payload.len() != count as usize {
        return Ok(None);
    }
    are_whole(payload.as_slice());
    let share = payload.try_clone()?;
    Ok(Some(share))
}

/// The range of these numbers, if there is one.
fn range_of(first: u32, count: u8) -> Option<Range>
    ensures { result ≡ (if is_span (record { first = first; count = count }) then Some (record { first = first; count = count }) else None) }
{
    match (first, count) {
        (0, 0) => Some(Range::none()),
        (0, 255) => Some(Range::all()),
        _ => Range::new(first, u32::from(count)).ok(),
    }
}
