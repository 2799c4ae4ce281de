//! Blocks as sectors.
ghost use Rattle.std.specs.Prelude.{◌≡◌, ◌↔◌, ◌+◌, ◌<◌, ◌≤◌, IsTrue, MatchOption, length, unwrap_or};
ghost use Rattle.std.specs.List.{splice};
ghost use Rattle.pf_paxos.specs.Blocks.{IsBlock, zero_block};
ghost use Rattle.pf_journal.specs.Sectors.{ReadsBlock, block_bytes, block_in, fields_of, head_bytes};

use pf_base::{Sector, Value, get_u16, get_u64, put_u16, put_u64};
use pf_paxos::{BALLOT_LIMIT, Block};

/// How many bytes stand before the value.
const HEAD: usize = 18;

/// The most bytes of a value.
const MOST: usize = 400;

/// The sector that is the spelling of a block. This takes no memory.
pub fn spell_block(block: &Block) -> Sector
    requires { IsBlock block.now }
    ensures bytes { result ≡ block_bytes block.now }
    ensures read { block_in result ≡ block.now }
{
    let head = spell_head(block);
    let value = block.value.as_slice();
    let mut sector = [0; 512];
    put(&mut sector, 0, &head);
    put(&mut sector, HEAD, value);
    sector
}

/// Writes bytes over those from byte `at` on.
fn put(out: &mut [u8], at: usize, bytes: &[u8])
    requires { at + length bytes.now ≤ length out.old }
    ensures { out.new ≡ splice out.old at (at + length bytes.now) bytes.now }
{
    out[at..at + bytes.len()].copy_from_slice(bytes);
}

/// The bytes before the value.
#[tactic(auto, unfolding(crate::specs::Sectors::head_bytes))]
fn spell_head(block: &Block) -> [u8; HEAD]
    ensures { result ≡ head_bytes block.now }
{
    let mut head = [0; HEAD];
    put_u64(&mut head, 0, block.mbal);
    put_u64(&mut head, 8, block.bal);
    put_u16(&mut head, 16, block.value.len() as u16);
    head
}

/// The block whose spelling the whole sector is, `None` exactly where it is the spelling of none. A sector of zeros is the block
/// (0, 0, no value). This takes no memory.
pub fn read_block(sector: &Sector) -> Option<Block>
    ensures exact { ReadsBlock sector.now result }
    ensures told { unwrap_or result zero_block ≡ block_in sector.now }
{
    let block = fields_of(sector)?;
    if is_block(&block) && is_same(sector, &spell_block(&block)) {
        Some(block)
    } else {
        None
    }
}

/// What the fields of a sector say; `None` exactly where its length is above 400.
#[tactic(auto, unfolding(crate::specs::Sectors::fields_of))]
fn fields_of(sector: &Sector) -> Option<Block>
    ensures { MatchOption result (400 < length (fields_of sector.now).value) (λ block. (block ≡ fields_of sector.now) × (length block.value ≤ 400)) }
{
    let count = get_u16(sector, 16)? as usize;
    if count > MOST {
        return None;
    }
    Some(Block {
        mbal: get_u64(sector, 0)?,
        bal: get_u64(sector, 8)?,
        value: Value::copied(&sector[HEAD..HEAD + count]),
    })
}

/// Whether these fields are those of a block.
fn is_block(block: &Block) -> bool
    ensures { IsTrue result ↔ IsBlock block.now }
{
    block.mbal < BALLOT_LIMIT
        && block.bal < BALLOT_LIMIT
        && (block.bal == 0) == block.value.is_empty()
}

fn is_same(sector: &[u8], other: &[u8]) -> bool
    ensures { IsTrue result ↔ (sector.now ≡ other.now) }
{
    sector == other
}
