//! A list of sectors that is read and changed by ranges.
ghost use Rattle.std.specs.Prelude.{◌≡◌, ◌+◌, ◌-◌, ◌*◌, ◌^◌, ◌<◌, ◌++◌, ◌≤◌, IfOk, IsTrue, drop, length, replicate, slice_range, take, vec_capacity};
ghost use Rattle.pf_base.specs.Span.{fits_in};
ghost use Rattle.pf_server_tables.specs.Thin.{thin};
ghost use Rattle.pf_server_tables.specs.Widths.{width_in};

use crate::CopyRoom;
use pf_base::{Filled, NoMemory, Range, Sector, Sectors};
use std::alloc::Global;
use std::marker::Model;
use std::mem;

/// The sectors of a chunk. Those above the highest one that was ever written are zeros, and not kept: their memory is there, and
/// untouched. Only `open` and `copied` take memory.
#[derive(Debug, Drop)]
pub struct SectorTable {
    written: Vec<Sector>,
    count: usize,
}

impl Model for SectorTable {
    ghost use Rattle.std.specs.Prelude.{List, ℕ, vec_capacity};
    ghost use Rattle.pf_server_tables.specs.Thin.{thin, IsThin};

    ghost Value = { List (List ℕ) };

    ghost view = { λ t. thin t.written.items t.count };

    ghost invariant = { λ t. IsThin t.written.items t.count (vec_capacity t.written) };
}

/// Makes the list as long as this, by zeros, where it is shorter. It takes no memory.
fn reach(sectors: &mut Vec<Sector>, end: usize)
    requires { end ≤ vec_capacity sectors.old }
    ensures items { sectors.new.items ≡ thin sectors.old.items end }
    ensures capacity { vec_capacity sectors.old ≤ vec_capacity sectors.new }
{
    if sectors.len() < end {
        // There is room, so this does not fail.
        let _ = sectors.resize(end, [0; 512]);
    }
}

/// The sectors from a place to before another, as far as there are any.
fn between(sectors: &[Sector], first: usize, end: usize) -> &[Sector]
    requires { first ≤ end }
    ensures { result.now ≡ take (end - first) (drop first sectors.now) }
{
    let first = first.min(sectors.len());
    let end = end.min(sectors.len());
    &sectors[first..end]
}

/// Where the range begins, which names so many sectors of a chunk.
fn place_of(range: Range, width: usize, count: usize) -> usize
    requires fits { IsTrue (fits_in range count) }
    requires width { width ≡ width_in range count }
    ensures first { result ≡ range.first }
    ensures low { result + width ≤ count }
{
    range.first() as usize
}

/// Changes the sectors from a place on for as many others.
fn exchange(sectors: &mut Vec<Sector>, first: usize, others: &mut Vec<Sector>)
    requires { first + length others.old.items ≤ length sectors.old.items }
    ensures items { sectors.new.items ≡ take first sectors.old.items ++ others.old.items ++ drop (first + length others.old.items) sectors.old.items }
    ensures capacity { vec_capacity sectors.new ≡ vec_capacity sectors.old }
    ensures others { others.new.items ≡ slice_range sectors.old.items first (first + length others.old.items) }
{
    let end = first + others.len();
    others.swap_with_slice(&mut sectors[first..end]);
}

impl SectorTable {
    /// A chunk of `count` sectors, each byte of them 0.
    pub fn open(alloc: Global, count: u32) -> Result<SectorTable, NoMemory>
        ensures { IfOk result (λ table. table ≡ replicate count (replicate 512 0)) }
    {
        let count = count as usize;
        Ok(SectorTable {
            written: Vec::with_capacity(alloc, count)?,
            count,
        })
    }

    /// A chunk of these sectors, as an image has them. It takes no memory.
    pub fn from_sectors(sectors: Sectors) -> SectorTable
        ensures { result ≡ sectors }
    {
        let written = sectors.into_vec();
        let count = written.len();
        // The bytes lie in memory, so their count is no number too large.
        let _bytes = written.as_flattened().len();
        SectorTable { written, count }
    }

    /// A copy of all the sectors, for an image.
    pub fn copied(&self, alloc: Global) -> Result<Sectors, NoMemory>
        ensures { IfOk result (λ sectors. sectors ≡ self.now) }
    {
        let mut sectors = CopyRoom::new(alloc, self.count)?.fill(&self.written);
        reach(&mut sectors, self.count);
        Ok(Sectors::new(sectors))
    }

    /// A copy of it in this memory, for a snapshot. It takes no other.
    pub fn copied_into(&self, room: CopyRoom) -> SectorTable
        requires { length self.now ≤ room }
        ensures { result ≡ self.now }
    {
        SectorTable {
            written: room.fill(&self.written),
            count: self.count,
        }
    }

    /// How many sectors there are. Their bytes can be counted too.
    pub fn len(&self) -> usize
        ensures count { result ≡ length self.now }
        ensures small { 512 * result < 2 ^ 64 }
    {
        self.count
    }

    /// The sectors up to the highest one that was written. All others are zeros.
    pub fn written(&self) -> &[Sector]
        ensures { self.now ≡ thin result.now (length self.now) }
    {
        &self.written
    }

    /// A copy of the sectors of the range, which is not the whole chunk, in this memory. It takes no other.
    pub fn fill(&self, range: Range, room: CopyRoom) -> Sectors
        requires room { range.count ≤ room }
        requires fits { range.first + range.count ≤ length self.now }
        ensures { result ≡ slice_range self.now range.first (range.first + range.count) }
    {
        let first = range.first() as usize;
        let count = range.count() as usize;
        let mut sectors = room.fill(between(&self.written, first, first + count));
        reach(&mut sectors, count);
        Sectors::new(sectors)
    }

    /// Changes the sectors of the range for those of the filled job, which holds the old ones afterwards.
    pub fn swap_in(&mut self, range: Range, filled: &mut Filled)
        requires fits { IsTrue (fits_in range (length self.old)) }
        requires count { length filled.old.sectors ≡ width_in range (length self.old) }
        ensures table { self.new ≡ take range.first self.old ++ filled.old.sectors ++ drop (range.first + length filled.old.sectors) self.old }
        ensures filled { filled.new ≡ record filled.old { sectors = slice_range self.old range.first (range.first + length filled.old.sectors) } }
    {
        let none = Sectors::new(Vec::new(*self.written.allocator()));
        let mut sectors = mem::replace(&mut filled.sectors, none).into_vec();
        let first = place_of(range, sectors.len(), self.count);
        reach(&mut self.written, first + sectors.len());
        exchange(&mut self.written, first, &mut sectors);
        filled.sectors = Sectors::new(sectors);
    }
}
