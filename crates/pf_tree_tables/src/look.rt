//! Look-ups in the tables.
ghost use Rattle.std.specs.Prelude.{◌≡◌, ◌<◌, ◌≤◌, IfOk, MatchOption, get_or, length, take};
ghost use Rattle.std.specs.List.{position_or_len};
ghost use Rattle.std.specs.Option.{is_none};
ghost use Rattle.pf_tree_tables.specs.Tables.{block_of, blocks_of, untagged_from};

use crate::places::ValuePlaces;
use crate::{Inode, Tag};
use pf_base::NoMemory;
use std::alloc::Global;

/// An inode, if it is in use.
pub(crate) fn inode_of(inodes: &[Option<Inode>], inode: u16) -> Option<Inode>
    ensures { result ≡ get_or inodes.now inode None }
{
    match inodes.get(inode as usize) {
        Some(place) => *place,
        None => None,
    }
}

/// The least free inode.
pub(crate) fn least_free(inodes: &ValuePlaces<Option<Inode>>) -> Option<u16>
    requires { length inodes.now ≤ 1024 }
    ensures { MatchOption result (length inodes.now ≤ position_or_len is_none inodes.now)
        (λ i. (i ≡ position_or_len is_none inodes.now) × (i < length inodes.now)) }
{
    let inode = inodes.least(None, 0)?;
    Some(inode as u16)
}

/// The blocks of a file in the order of their indices.
pub(crate) fn blocks_of(
    alloc: Global,
    tags: &ValuePlaces<Option<Tag>>,
    inode: u16,
    count: u32,
) -> Result<Vec<u16>, NoMemory>
    requires { length tags.now ≤ 4096 }
    ensures { IfOk result (λ v. v.items ≡ blocks_of tags.now inode count) }
{
    let mut blocks = Vec::new(alloc);
    for index in 0..count {
        blocks.push(block_of(tags, inode, index))?;
    }
    Ok(blocks)
}

/// The block of an index of a file; the count of blocks where there is none.
pub(crate) fn block_of(tags: &ValuePlaces<Option<Tag>>, inode: u16, index: u32) -> u16
    requires { length tags.now ≤ 4096 }
    ensures block { result ≡ block_of tags.now inode index }
    ensures low { result ≤ length tags.now }
{
    match tags.least(Some(Tag { inode, index }), 0) {
        Some(block) => block as u16,
        None => tags.len() as u16,
    }
}

/// The least blocks from the first one on that have no tag, up to so many.
pub(crate) fn free_blocks(
    alloc: Global,
    tags: &ValuePlaces<Option<Tag>>,
    first: u32,
    count: usize,
) -> Result<Vec<u16>, NoMemory>
    requires { length tags.now ≤ 4096 }
    ensures { IfOk result (λ v. v.items ≡ take count (untagged_from first tags.now)) }
{
    let mut blocks = Vec::new(alloc);
    let mut next = first;
    for taken in 0..count {
        let Some(block) = tags.least(None, next) else {
            return Ok(blocks);
        };
        blocks.push(block as u16)?;
        next = block + 1;
    }
    Ok(blocks)
}
