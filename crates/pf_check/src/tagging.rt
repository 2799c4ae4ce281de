//! The first block of each tag.
ghost use Rattle.std.specs.Prelude.{◌≡◌, ◌+◌, ◌*◌, ◌<◌, None, IfOk, replicate};
ghost use Rattle.pf_check.specs.Walks.{AreFirst};

use crate::tables::{NUMBERS, Tables};
use pf_base::NoMemory;
use pf_tree_tables::{INODES, MOST_FILE_BLOCKS, Tag};
use std::alloc::Global;

/// The count of places of tags, one for each index that a file of each inode may have.
const PLACES: u32 = 49152;

/// The first block for each index that a file of a volume may have.
pub(crate) fn first_blocks(alloc: Global, tables: &Tables) -> Result<Vec<Option<u16>>, NoMemory>
    ensures { IfOk result (λ firsts. AreFirst tables.now firsts.items 65536) }
{
    let mut firsts = no_blocks(alloc)?;
    for number in 0..tables.numbers() {
        note_tag(&mut firsts, tables, number as u16);
    }
    Ok(firsts)
}

/// No block for any index.
fn no_blocks(alloc: Global) -> Result<Vec<Option<u16>>, NoMemory>
    ensures { IfOk result (λ firsts. firsts.items ≡ replicate 49152 None) }
{
    let mut firsts = Vec::with_capacity(alloc, PLACES as usize)?;
    for number in 0..PLACES {
        firsts.push(None)?;
    }
    Ok(firsts)
}

/// Notes a block where it is the first one with its tag.
fn note_tag(firsts: &mut Vec<Option<u16>>, tables: &Tables, block: u16)
    requires { AreFirst tables.now firsts.old.items block }
    ensures { AreFirst tables.now firsts.new.items (block + 1) }
{
    let Some(tag) = tables.tag(block) else {
        return;
    };
    if tag.inode < INODES && tag.index < MOST_FILE_BLOCKS as u32 {
        let place = place_of(tag);
        if firsts[place].is_none() {
            firsts[place] = Some(block);
        }
    }
}

/// The place of a tag.
pub(crate) fn place_of(tag: Tag) -> usize
    requires inode { tag.inode < 1024 }
    requires index { tag.index < 48 }
    ensures { result ≡ tag.inode * 48 + tag.index }
{
    tag.inode as usize * 48 + tag.index as usize
}
