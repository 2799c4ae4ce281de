//! The bytes of a write.
ghost use Rattle.std.specs.Prelude.{◌≡◌, ◌<◌, ◌≤◌, IfOk, length, replicate, slice_get, Some};

use crate::{NoMemory, Sector, Sectors};
use std::alloc::Global;
use std::marker::Model;

/// 1 to 8 sectors.
#[derive(Debug, Drop)]
pub struct Data {
    sectors: Vec<Sector>,
}

impl Model for Data {
    ghost use Rattle.std.specs.Prelude.{List, ℕ, ◌≤◌, length};

    ghost Value = { List (List ℕ) };

    ghost view = { λ d. d.sectors.items };

    ghost invariant = { λ d. (1 ≤ length d.sectors.items) × (length d.sectors.items ≤ 8) };
}

impl Data {
    /// `count` sectors, 1 to 8, each byte of them `byte`.
    pub fn filled(alloc: Global, byte: u8, count: u32) -> Result<Data, NoMemory>
        requires some { 1 ≤ count }
        requires few { count ≤ 8 }
        ensures { IfOk result (λ d. d ≡ replicate count (replicate 512 byte)) }
    {
        let mut sectors = Vec::with_capacity(alloc, count as usize)?;
        for made in 0..count {
            sectors.push([byte; 512])?;
        }
        Ok(Data { sectors })
    }

    /// A copy of 1 to 8 sectors.
    pub fn copied(alloc: Global, sectors: &[Sector]) -> Result<Data, NoMemory>
        requires some { 1 ≤ length sectors.now }
        requires few { length sectors.now ≤ 8 }
        ensures { IfOk result (λ d. d ≡ sectors.now) }
    {
        let sectors = Vec::from_slice(alloc, sectors)?;
        Ok(Data { sectors })
    }

    /// A list of 1 to 8 sectors itself, so no memory is taken.
    pub fn from_sectors(sectors: Sectors) -> Data
        requires some { 1 ≤ length sectors }
        requires few { length sectors ≤ 8 }
        ensures { result ≡ sectors }
    {
        Data {
            sectors: sectors.into_vec(),
        }
    }

    /// The count of sectors, 1 to 8.
    pub fn len(&self) -> usize
        ensures count { result ≡ length self.now }
        ensures some { 1 ≤ result }
        ensures few { result ≤ 8 }
    {
        self.sectors.len()
    }

    /// Sector `k` of them, counted from 0.
    pub fn sector(&self, k: usize) -> &Sector
        requires { k < length self.now }
        ensures { slice_get self.now k ≡ Some result.now }
    {
        &self.sectors[k]
    }

    /// All its sectors.
    pub fn as_slice(&self) -> &[Sector]
        ensures { result.now ≡ self.now }
    {
        &self.sectors
    }
}
