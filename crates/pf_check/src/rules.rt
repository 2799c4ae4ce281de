//! The rules of each kind at a number.
ghost use Rattle.std.specs.Prelude.{◌≡◌, ◌↔◌, ◌≤◌, ◌<◌, ℕ, IsTrue};
ghost use Rattle.std.specs.Bool.{MatchBool};
ghost use Rattle.pf_tree_tables.specs.Tables.{tag_at};
ghost use Rattle.pf_tree.specs.Trees.{block_count};
ghost use Rattle.pf_check.specs.Raw.{IsRaw, inode_in};
ghost use Rattle.pf_check.specs.Kinds.{HasGap, IsDirectory, IsOfFile, InodeIsSized, EntryIsSound, IsTagSound, IsUsed, KeepsRule, KindShows};
ghost use Rattle.pf_check.specs.Walks.{AreFirst, BlocksAreCounted, IsSeen};

use crate::RawInode;
use crate::tables::Tables;
use crate::tagging::place_of;
use pf_base::{FIRST_DATA_BLOCK, MOST_FILE_BYTES};
use pf_layout::is_name;
use pf_tree_tables::{DirectoryEntry, Tag};

/// The greatest number of an inode of a volume.
const LAST_INODE: u16 = 1023;

/// Whether an inode is a directory.
pub(crate) fn is_directory(tables: &Tables, inode: u16) -> bool
    ensures { IsTrue result ↔ IsDirectory tables.now inode }
{
    matches!(tables.inode(inode), Some(RawInode::Directory { .. }))
}

/// Whether an entry of a directory is sound.
fn is_sound(tables: &Tables, directory: u16, row: &DirectoryEntry) -> bool
    ensures { IsTrue result ↔ EntryIsSound tables.now directory row.now.name row.now.inode }
{
    row.inode <= LAST_INODE
        && tables.inode(row.inode).is_some()
        && is_directory(tables, directory)
        && is_name(row.name.as_slice())
}

/// Whether a directory has an entry that is not sound.
pub(crate) fn has_stray(tables: &Tables, directory: u16) -> bool
    requires { IsRaw tables.now }
    ensures { MatchBool result (KindShows 2 tables.now directory) (KeepsRule 2 tables.now directory) }
{
    for row in tables.names_in(directory) {
        if !is_sound(tables, directory, row) {
            return true;
        }
    }
    false
}

/// Whether inode 0 is named, or another one that is in use is not named exactly once.
pub(crate) fn is_misnamed(tables: &Tables, names: &[u8], inode: u16) -> bool
    requires raw { IsRaw tables.now }
    requires names { BlocksAreCounted tables.now names.now }
    ensures { MatchBool result (KindShows 3 tables.now inode) (KeepsRule 3 tables.now inode) }
{
    let count = names[inode as usize];
    if inode == 0 {
        return count > 0;
    }
    count != 1 && tables.inode(inode).is_some()
}

/// Whether an inode is in use and not reached from inode 0.
pub(crate) fn is_lost(tables: &Tables, reached: &[bool], inode: u16) -> bool
    requires { IsSeen tables.now reached.now }
    ensures { MatchBool result (KindShows 4 tables.now inode) (KeepsRule 4 tables.now inode) }
{
    !reached[inode as usize] && tables.inode(inode).is_some()
}

/// Whether an inode has a size that it may not have.
pub(crate) fn is_missized(tables: &Tables, inode: u16) -> bool
    ensures { MatchBool result (KindShows 5 tables.now inode) (KeepsRule 5 tables.now inode) }
{
    match tables.inode(inode) {
        None => false,
        Some(RawInode::Directory { size }) => size != 0,
        Some(RawInode::File { size }) => size > MOST_FILE_BYTES,
    }
}

/// Whether a block has a tag that is not sound.
pub(crate) fn has_stray_tag(tables: &Tables, firsts: &[Option<u16>], block: u16) -> bool
    requires firsts { AreFirst tables.now firsts.now 65536 }
    requires low { (i : ℕ) → IsUsed tables.now i → i ≤ 1023 }
    requires sizes { (i : ℕ) → InodeIsSized (inode_in tables.now i) }
    ensures { MatchBool result (KindShows 6 tables.now block) (KeepsRule 6 tables.now block) }
{
    let Some(tag) = tables.tag(block) else {
        return false;
    };
    !is_tag_sound(tables, firsts, block, tag)
}

/// Whether the tag of a block is sound.
fn is_tag_sound(tables: &Tables, firsts: &[Option<u16>], block: u16, tag: Tag) -> bool
    requires stands { tag_at tables.now.tags block ≡ Some tag }
    requires firsts { AreFirst tables.now firsts.now 65536 }
    requires low { (i : ℕ) → IsUsed tables.now i → i ≤ 1023 }
    requires sizes { (i : ℕ) → InodeIsSized (inode_in tables.now i) }
    ensures { IsTrue result ↔ IsTagSound tables.now block tag }
{
    FIRST_DATA_BLOCK <= block
        && block <= 4095
        && is_of_file(tables, tag)
        && firsts[place_of(tag)] == Some(block)
}

/// Whether a tag is that of an index of a file.
fn is_of_file(tables: &Tables, tag: Tag) -> bool
    ensures { IsTrue result ↔ IsOfFile tables.now tag }
{
    match tables.inode(tag.inode) {
        Some(RawInode::File { size }) => (tag.index as u64) < block_count(size),
        _ => false,
    }
}

/// The count of blocks of a file.
fn block_count(size: u32) -> u64
    ensures { result ≡ block_count size }
{
    (size as u64 + 4095) / 4096
}

/// Whether a file lacks a block of an index that its size has.
pub(crate) fn has_gap(tables: &Tables, firsts: &[Option<u16>], inode: u16) -> bool
    requires firsts { AreFirst tables.now firsts.now 65536 }
    requires low { (i : ℕ) → IsUsed tables.now i → i ≤ 1023 }
    requires sizes { (i : ℕ) → InodeIsSized (inode_in tables.now i) }
    requires raw { IsRaw tables.now }
    ensures { MatchBool result (HasGap tables.now inode) (KeepsRule 7 tables.now inode) }
{
    let Some(RawInode::File { size }) = tables.inode(inode) else {
        return false;
    };
    for index in 0..block_count(size) as u32 {
        let place = place_of(Tag { inode, index });
        if firsts[place].is_none() {
            return true;
        }
    }
    false
}
