//! What a write, or a truncate that grows a file, does to the bytes of a block.
ghost use Rattle.std.specs.Prelude.{◌≡◌, ◌+◌, ◌<◌, ◌≤◌, ◌^◌, IfOk, length};
ghost use Rattle.pf_file_calls.specs.Filling.{end_of_fill, filled_block, filled_byte, first_of_fill, is_new, is_place_within, bytes_wanted};
ghost use Rattle.pf_tree.specs.Trees.{block_count};

use pf_base::NoMemory;
use std::alloc::Global;

/// What happens to the bytes of a file: from its old size up to the start they become zeros, then `count` of them `byte`.
#[derive(Clone, Copy, Debug, PartialEq, Eq)]
pub struct Fill {
    pub inode: u16,
    /// The size of the file before.
    pub size: u32,
    pub start: u32,
    pub byte: u8,
    pub count: u32,
}

/// Whether a place is one of so many from the first one on.
fn is_within(first: u64, count: u64, place: u64) -> bool
    requires { first + count < 2 ^ 64 }
    ensures { result ≡ is_place_within first count place }
{
    first <= place && place < first + count
}

/// The byte at a place of the file after the fill.
fn filled_byte(fill: &Fill, place: u64, old: u8) -> u8
    ensures { result ≡ filled_byte fill.now place old }
{
    let gap = fill.start.saturating_sub(fill.size);
    if is_within(fill.start as u64, fill.count as u64, place) {
        fill.byte
    } else if is_within(fill.size as u64, gap as u64, place) {
        0
    } else {
        old
    }
}

/// The bytes of the block of this index after the fill.
#[tactic(auto, using(crate::proofs::FilledBlocks::more_filled))]
pub(crate) fn filled(
    alloc: Global,
    fill: &Fill,
    index: u32,
    bytes: &[u8],
) -> Result<Vec<u8>, NoMemory>
    requires { length bytes.now ≤ 4096 }
    ensures bytes { IfOk result (λ after. after.items ≡ filled_block fill.now index bytes.now) }
    ensures count { IfOk result (λ after. length after.items ≡ length bytes.now) }
{
    let first = 4096 * index as u64;
    let mut after = Vec::with_capacity(alloc, bytes.len())?;
    for k in 0..bytes.len() {
        after.push(filled_byte(fill, first + k as u64, bytes[k]))?;
    }
    Ok(after)
}

/// How many blocks a file of this size has.
pub(crate) fn count_blocks(size: u64) -> u64
    requires { size < 2 ^ 60 }
    ensures { result ≡ block_count size }
{
    (size + 4095) / 4096
}

/// The index of the first block that the fill touches.
pub(crate) fn first_of(fill: &Fill) -> u32
    ensures { result ≡ first_of_fill fill.now }
{
    fill.size.min(fill.start) / 4096
}

/// The index past the last block that the fill touches.
pub(crate) fn end_of(fill: &Fill) -> u64
    ensures index { result ≡ end_of_fill fill.now }
    ensures low { result < 2 ^ 32 }
{
    count_blocks(fill.start as u64 + fill.count as u64)
}

/// Whether the file did not have the block of this index before.
pub(crate) fn is_new(fill: &Fill, index: u32) -> bool
    ensures { result ≡ is_new fill.now index }
{
    count_blocks(fill.size as u64) <= index as u64
}

/// What a read from one place of the file up to another gives, of the bytes of the blocks that hold it.
pub(crate) fn wanted(alloc: Global, offset: u32, to: u32, bytes: &[u8]) -> Result<Vec<u8>, NoMemory>
    ensures { IfOk result (λ some. some.items ≡ bytes_wanted offset to bytes.now) }
{
    let from = ((offset % 4096) as usize).min(bytes.len());
    let rest = &bytes[from..];
    let count = (to.saturating_sub(offset) as usize).min(rest.len());
    let some = Vec::from_slice(alloc, &rest[..count])?;
    Ok(some)
}
