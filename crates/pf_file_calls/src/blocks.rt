//! What is asked of chunks.
ghost use Rattle.std.specs.Prelude.{◌≡◌, ◌*◌, ◌/◌, ◌<◌, IfOk, length};
ghost use Rattle.pf_volume.specs.Volumes.{size_of};
ghost use Rattle.pf_file_calls.specs.Blocks.{FitsIn, data_reads, reads_block, run_at, data_writes, writes_block};

use crate::bytes::cut;
use pf_base::{Ask, Data, NoMemory, Payload, Range, Sector, Sectors};
use pf_volume::Volume;
use std::alloc::Global;

/// A read of so many sectors of the volume, which lie in one chunk.
pub fn reads(volume: &Volume, first: u32, count: u32) -> Ask
    requires { FitsIn volume.now first count }
    ensures { result ≡ data_reads volume.now first count }
{
    Ask::Read {
        chunk: chunk_at(volume, first, count),
        range: run_at(volume, first, count),
    }
}

/// A write of sectors of the volume, which lie in one chunk.
pub fn writes(
    alloc: Global,
    volume: &Volume,
    first: u32,
    sectors: Vec<Sector>,
) -> Result<Ask, NoMemory>
    requires { FitsIn volume.now first (length sectors.items) }
    ensures { IfOk result (λ ask. ask ≡ data_writes volume.now first sectors.items) }
{
    let count = sectors.len() as u32;
    let data = Data::from_sectors(Sectors::new(sectors));
    let payload = Payload::new(alloc, data)?;
    Ok(Ask::Write {
        chunk: chunk_at(volume, first, count),
        range: run_at(volume, first, count),
        payload,
    })
}

/// The chunk of a run of sectors.
fn chunk_at(volume: &Volume, first: u32, count: u32) -> u8
    requires { FitsIn volume.now first count }
    ensures { result ≡ first / volume.now.sectors }
{
    volume.laws();
    (first / volume.sectors()) as u8
}

/// The range of a run of sectors in its chunk.
fn run_at(volume: &Volume, first: u32, count: u32) -> Range
    requires { FitsIn volume.now first count }
    ensures { result ≡ run_at volume.now first count }
{
    volume.laws();
    let Ok(range) = Range::new(first % volume.sectors(), count) else {
        unreachable!();
    };
    range
}

/// A read of a block.
pub(crate) fn reads_block(volume: &Volume, block: u16) -> Ask
    requires { block < size_of volume.now / 8 }
    ensures { result ≡ reads_block volume.now block }
{
    volume.laws();
    reads(volume, 8 * block as u32, 8)
}

/// A write of the bytes of a block.
pub(crate) fn writes_block(
    alloc: Global,
    volume: &Volume,
    block: u16,
    bytes: &[u8],
) -> Result<Ask, NoMemory>
    requires block { block < size_of volume.now / 8 }
    requires bytes { length bytes.now ≡ 4096 }
    ensures { IfOk result (λ ask. ask ≡ writes_block volume.now block bytes.now) }
{
    volume.laws();
    let sectors = cut(alloc, bytes, 8)?;
    writes(alloc, volume, 8 * block as u32, sectors)
}
