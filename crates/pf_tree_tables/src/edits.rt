//! What the changes of a transaction do to the tables.
ghost use Rattle.std.specs.Prelude.{◌≡◌, ℕ, ◌+◌, ◌<◌, ◌≤◌, ◌∷◌, [], OnOk, cond, length, set};
ghost use Rattle.pf_tree_tables.specs.Tables.{after_change, applied, inode_with, may_set, named, unnamed};
ghost use Rattle.pf_tree_tables.specs.Shelves.{ShelvesHaveRoom, lists_of, room_in, tables_of};

use crate::places::ValuePlaces;
use crate::rows::Rows;
use crate::{Change, DirectoryEntry, Inode, Tag};
use pf_base::{Bytes, MOST_FILE_BYTES, NoMemory};
use std::alloc::Global;

/// The inode of the root directory.
pub(crate) const ROOT: u16 = 0;

/// The greatest count of blocks of a file.
pub const MOST_FILE_BLOCKS: u8 = 48;

/// The inode of a tag that frees its block.
pub const NO_INODE: u16 = 65535;

/// Takes the room for the names that the changes add.
pub(crate) fn make_room(directories: &mut Vec<Rows>, changes: &[Change]) -> Result<(), NoMemory>
    ensures lists { lists_of directories.new.items ≡ lists_of directories.old.items }
    ensures room { OnOk result (ShelvesHaveRoom directories.new.items changes.now (length changes.now)) }
{
    for change in changes {
        room_for(directories, change, changes.len())?;
    }
    Ok(())
}

/// Takes room for so many names in the directory to which a change adds one.
fn room_for(directories: &mut Vec<Rows>, change: &Change, count: usize) -> Result<(), NoMemory>
    ensures lists { lists_of directories.new.items ≡ lists_of directories.old.items }
    ensures kept { (d : ℕ) → room_in directories.old.items d ≤ room_in directories.new.items d }
    ensures room { OnOk result (ShelvesHaveRoom directories.new.items (change.now ∷ []) count) }
{
    if let Change::AddEntry { directory, .. } = change {
        return reserve_in(directories, *directory, count);
    }
    Ok(())
}

/// Takes room for so many names in a directory.
fn reserve_in(directories: &mut Vec<Rows>, directory: u16, count: usize) -> Result<(), NoMemory>
    ensures lists { lists_of directories.new.items ≡ lists_of directories.old.items }
    ensures kept { (d : ℕ) → room_in directories.old.items d ≤ room_in directories.new.items d }
    ensures room { OnOk result (directory < length directories.new.items → count ≤ room_in directories.new.items directory) }
{
    let place = directory as usize;
    if place < directories.len() {
        return directories[place].reserve(count);
    }
    Ok(())
}

/// Carries out changes, one by one.
pub(crate) fn carry_out(
    inodes: &mut ValuePlaces<Option<Inode>>,
    directories: &mut Vec<Rows>,
    tags: &mut ValuePlaces<Option<Tag>>,
    changes: Vec<Change>,
)
    requires { ShelvesHaveRoom directories.old.items changes.items (length changes.items) }
    ensures { tables_of inodes.new directories.new.items tags.new ≡ applied (tables_of inodes.old directories.old.items tags.old) changes.items }
{
    for change in changes {
        change_one(inodes, directories, tags, change);
    }
}

/// Carries out one change.
fn change_one(
    inodes: &mut ValuePlaces<Option<Inode>>,
    directories: &mut Vec<Rows>,
    tags: &mut ValuePlaces<Option<Tag>>,
    change: Change,
)
    requires { ShelvesHaveRoom directories.old.items (change ∷ []) 1 }
    ensures tables { tables_of inodes.new directories.new.items tags.new ≡ after_change (tables_of inodes.old directories.old.items tags.old) change }
    ensures room { (d : ℕ) → room_in directories.old.items d ≤ room_in directories.new.items d + 1 }
    ensures count { length directories.new.items ≡ length directories.old.items }
{
    match change {
        Change::SetInode { inode, kind, size } => set_inode(inodes, inode, kind, size),
        Change::AddEntry {
            directory,
            inode,
            name,
        } => {
            if (inode as usize) < inodes.len() {
                add_entry(directories, directory, inode, name);
            }
        }
        Change::DeleteEntry { directory, name } => delete_entry(directories, directory, &name),
        Change::SetTag {
            block,
            inode,
            index,
        } => {
            if inode == NO_INODE {
                tags.set(block, None);
            } else if (inode as usize) < inodes.len() && index < MOST_FILE_BLOCKS {
                let index = index as u32;
                tags.set(block, Some(Tag { inode, index }));
            }
        }
    }
}

/// Sets an inode, or frees it.
fn set_inode(inodes: &mut ValuePlaces<Option<Inode>>, inode: u16, kind: u8, size: u32)
    ensures { inodes.new ≡ cond (may_set inode kind size) (set inodes.old inode (inode_with kind size)) inodes.old }
{
    if may_set(inode, kind, size) {
        inodes.set(inode, inode_with(kind, size));
    }
}

/// The inode of this kind.
fn inode_with(kind: u8, size: u32) -> Option<Inode>
    ensures { result ≡ inode_with kind size }
{
    match kind {
        0 => None,
        1 => Some(Inode::File { size }),
        _ => Some(Inode::Directory),
    }
}

/// Whether tables with this inode stay whole: the root is a directory, and no file is larger than the greatest size.
fn may_set(inode: u16, kind: u8, size: u32) -> bool
    ensures { result ≡ may_set inode kind size }
{
    size <= MOST_FILE_BYTES && (kind > 1 || inode > ROOT)
}

/// Gives a name in a directory to an inode.
fn add_entry(directories: &mut Vec<Rows>, directory: u16, inode: u16, name: Bytes)
    requires { directory < length directories.old.items → 1 ≤ room_in directories.old.items directory }
    ensures lists { lists_of directories.new.items ≡ named (lists_of directories.old.items) directory inode name }
    ensures room { (d : ℕ) → room_in directories.old.items d ≤ room_in directories.new.items d + 1 }
    ensures count { length directories.new.items ≡ length directories.old.items }
{
    let place = directory as usize;
    if place < directories.len() {
        let rows = &mut directories[place];
        rows.forget(name.as_slice());
        rows.add(DirectoryEntry { inode, name });
    }
}

/// Takes a name out of a directory.
fn delete_entry(directories: &mut Vec<Rows>, directory: u16, name: &Bytes)
    ensures lists { lists_of directories.new.items ≡ unnamed (lists_of directories.old.items) directory name.now }
    ensures room { (d : ℕ) → room_in directories.old.items d ≤ room_in directories.new.items d }
    ensures count { length directories.new.items ≡ length directories.old.items }
{
    let place = directory as usize;
    if place < directories.len() {
        let rows = &mut directories[place];
        rows.forget(name.as_slice());
    }
}
