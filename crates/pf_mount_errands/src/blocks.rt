//! The blocks of a journal in sectors.
ghost use Rattle.std.specs.Prelude.{◌≡◌, IfOk, map};
ghost use Rattle.pf_paxos.specs.Standing.{AreBlocks};
ghost use Rattle.pf_journal.specs.Sectors.{block_in};
ghost use Rattle.pf_mount_errands.specs.Blocks.{has_bal};

use pf_base::{NoMemory, Sector, Value};
use pf_journal::{read_block, spelled_blocks_are_read};
use pf_paxos::Block;
use std::alloc::Global;

/// The blocks of sectors. A sector that is the spelling of none counts as zeros.
pub fn blocks_in(alloc: Global, sectors: &[Sector]) -> Result<Vec<Block>, NoMemory>
    ensures blocks { IfOk result (λ blocks. blocks.items ≡ map block_in sectors.now) }
    ensures forms { IfOk result (λ blocks. AreBlocks blocks.items) }
{
    spelled_blocks_are_read();
    let mut blocks = Vec::with_capacity(alloc, sectors.len())?;
    for sector in sectors {
        blocks.push(block_of(sector))?;
    }
    Ok(blocks)
}

/// The block of a sector.
fn block_of(sector: &Sector) -> Block
    ensures { result ≡ block_in sector.now }
{
    match read_block(sector) {
        Some(block) => block,
        None => Block {
            mbal: 0,
            bal: 0,
            value: Value::empty(),
        },
    }
}

/// Whether some block has a nonzero bal.
pub fn has_bal(blocks: &[Block]) -> bool
    ensures { result ≡ has_bal blocks.now }
{
    blocks.iter().any(|block| 0 < block.bal)
}
