//! The superblock.
ghost use Rattle.std.specs.Prelude.{◌≡◌, ◌≤◌, ◌↔◌, IsTrue};
ghost use Rattle.pf_layout.specs.Supers.{ReadsSuper, super_block};

use pf_base::Sector;
use thiserror::Error;

/// Sector 0 is neither zeros nor the superblock of this volume.
#[derive(Clone, Copy, Debug, PartialEq, Eq, Error)]
#[error("bad super")]
pub struct BadSuper;

impl BadSuper {
    /// The number of this refusal.
    pub fn number(&self) -> u32
        ensures { result ≡ 81 }
    {
        81
    }
}

/// The superblock of a volume of so many chunks of so many sectors.
pub fn spell_super(chunks: u32, sectors: u32) -> Sector
    requires chunks { chunks ≤ 8 }
    requires sectors { sectors ≤ 4096 }
    ensures { result ≡ super_block chunks sectors }
{
    let number = (sectors as u16).to_be_bytes();
    let head = [80, 70, 83, 66, 1, chunks as u8, number[0], number[1]];
    let mut sector = [0; 512];
    sector[..8].copy_from_slice(&head);
    sector
}

/// Whether sector 0 holds the superblock of this volume; it does not where it holds zeros.
pub fn read_super(sector: &Sector, chunks: u32, sectors: u32) -> Result<bool, BadSuper>
    requires chunks { chunks ≤ 8 }
    requires sectors { sectors ≤ 4096 }
    ensures { ReadsSuper chunks sectors sector.now result }
{
    let block = spell_super(chunks, sectors);
    if is_same(sector, &block) {
        return Ok(true);
    }
    if is_same(sector, &[0; 512]) {
        return Ok(false);
    }
    Err(BadSuper)
}

fn is_same(sector: &[u8], other: &[u8]) -> bool
    ensures { IsTrue result ↔ (sector.now ≡ other.now) }
{
    sector == other
}
