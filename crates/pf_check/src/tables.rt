//! The tables that transactions make, with nothing refused.
ghost use Rattle.std.specs.Prelude.{◌≡◌, IfOk, OnOk, OnErr, replicate, set};
ghost use Rattle.pf_tree_tables.specs.Tables.{names_in, tag_at, unnamed};
ghost use Rattle.pf_check.specs.Raw.{IsPartOf, IsRaw, after_change, empty_tables, inode_in, tables_made, raw_inode, raw_tag, with_name};

use crate::rows::{DirectoryRows, no_rows};
use pf_base::{Bytes, NoMemory};
use pf_tree_tables::{Change, DirectoryEntry, NO_INODE, Tag, Txn};
use std::alloc::Global;
use std::marker::Model;

/// How many numbers there are of inodes and of blocks.
pub(crate) const NUMBERS: u32 = 65536;

/// An inode in use, with the size that it was given.
#[derive(Clone, Copy, Debug, PartialEq, Eq)]
pub enum RawInode {
    File { size: u32 },
    Directory { size: u32 },
}

/// The tables that transactions make: a place for each number of an inode, a directory and a block. Nothing is refused or corrected, so
/// they need not stand for a tree.
#[derive(Drop)]
pub struct Tables {
    inodes: Vec<Option<RawInode>>,
    directories: Vec<DirectoryRows>,
    tags: Vec<Option<Tag>>,
}

impl Model for Tables {
    ghost use Rattle.pf_check.specs.Raw.{RawTables};

    ghost Value = { RawTables };

    ghost view = { λ t. record { inodes = t.inodes.items; entries = t.directories.items; tags = t.tags.items } };

    ghost use Rattle.pf_check.specs.Raw.{IsRaw};

    ghost invariant = { λ t. IsRaw (record { inodes = t.inodes.items; entries = t.directories.items; tags = t.tags.items }) };
}

impl Tables {
    /// The empty tables: inode 0 is a directory of size 0, and nothing else is there. The one error is `NoMemory` (1).
    pub fn new(alloc: Global) -> Result<Tables, NoMemory>
        ensures { IfOk result (λ tables. tables ≡ empty_tables) }
    {
        let mut inodes = free_places(alloc)?;
        inodes[0] = Some(RawInode::Directory { size: 0 });
        let directories = no_rows(alloc, NUMBERS as usize)?;
        let tags = free_places(alloc)?;
        Ok(Tables {
            inodes,
            directories,
            tags,
        })
    }

    /// Makes the changes of a transaction, one by one. Each sets or removes exactly what it names, whatever it is; an entry whose name
    /// the directory has leads to its new inode from then on, and what is not there is removed without a trace. A kind above 2 counts
    /// as 2. The one error is `NoMemory` (1), after which the first of the changes are made, up to one that is not made at all.
    pub fn put(&mut self, alloc: Global, txn: &Txn) -> Result<(), NoMemory>
        ensures ok { OnOk result (self.new ≡ tables_made self.old txn.now.changes) }
        ensures err { OnErr result (IsPartOf self.old txn.now.changes self.new) }
    {
        for change in txn.changes.as_slice() {
            self.change(alloc, change)?;
        }
        Ok(())
    }

    /// Makes one change. `NoMemory` leaves the tables as they were.
    fn change(&mut self, alloc: Global, change: &Change) -> Result<(), NoMemory>
        ensures ok { OnOk result (self.new ≡ after_change self.old change.now) }
        ensures err { OnErr result (self.new ≡ self.old) }
    {
        match change {
            Change::SetInode { inode, kind, size } => self.set_inode(*inode, *kind, *size),
            Change::AddEntry {
                directory,
                inode,
                name,
            } => self.add_entry(alloc, *directory, *inode, name)?,
            Change::DeleteEntry { directory, name } => self.delete_entry(*directory, name),
            Change::SetTag {
                block,
                inode,
                index,
            } => self.set_tag(*block, *inode, *index),
        }
        Ok(())
    }

    /// Sets an inode, or frees it.
    fn set_inode(&mut self, inode: u16, kind: u8, size: u32)
        ensures { self.new ≡ record self.old { inodes = set self.old.inodes inode (raw_inode kind size) } }
    {
        self.inodes[inode as usize] = raw_inode(kind, size);
    }

    /// Has a name of a directory lead to an inode. `NoMemory` leaves the tables as they were.
    fn add_entry(
        &mut self,
        alloc: Global,
        directory: u16,
        inode: u16,
        name: &Bytes,
    ) -> Result<(), NoMemory>
        ensures ok { OnOk result (self.new ≡ record self.old { entries = with_name self.old.entries directory inode name.now }) }
        ensures err { OnErr result (self.new ≡ self.old) }
    {
        self.directories[directory as usize].put(alloc, inode, name)
    }

    /// Takes a name out of a directory.
    fn delete_entry(&mut self, directory: u16, name: &Bytes)
        ensures { self.new ≡ record self.old { entries = unnamed self.old.entries directory name.now } }
    {
        self.directories[directory as usize].forget(name.as_slice());
    }

    /// Sets the tag of a block, or frees it.
    fn set_tag(&mut self, block: u16, inode: u16, index: u8)
        ensures { self.new ≡ record self.old { tags = set self.old.tags block (raw_tag inode index) } }
    {
        self.tags[block as usize] = raw_tag(inode, index);
    }

    /// An inode, if it is in use.
    pub(crate) fn inode(&self, inode: u16) -> Option<RawInode>
        ensures { result ≡ inode_in self.now inode }
    {
        self.inodes[inode as usize]
    }

    /// The entries of a directory.
    pub(crate) fn names_in(&self, directory: u16) -> &[DirectoryEntry]
        ensures { result.now ≡ names_in self.now.entries directory }
    {
        self.directories[directory as usize].as_slice()
    }

    /// The tag of a block, if it has one.
    pub(crate) fn tag(&self, block: u16) -> Option<Tag>
        ensures { result ≡ tag_at self.now.tags block }
    {
        self.tags[block as usize]
    }

    /// How many numbers there are; the tables are such as transactions make.
    pub(crate) fn numbers(&self) -> u32
        ensures count { result ≡ 65536 }
        ensures raw { IsRaw self.now }
    {
        self.inodes.len() as u32
    }
}

/// The inode of this kind.
fn raw_inode(kind: u8, size: u32) -> Option<RawInode>
    ensures { result ≡ raw_inode kind size }
{
    match kind {
        0 => None,
        1 => Some(RawInode::File { size }),
        _ => Some(RawInode::Directory { size }),
    }
}

/// The tag of this inode and index.
fn raw_tag(inode: u16, index: u8) -> Option<Tag>
    ensures { result ≡ raw_tag inode index }
{
    if inode == NO_INODE {
        return None;
    }
    let index = index as u32;
    Some(Tag { inode, index })
}

/// A free place for each number.
fn free_places<T: Copy>(alloc: Global) -> Result<Vec<Option<T>>, NoMemory>
    ensures { IfOk result (λ v. v.items ≡ replicate 65536 None) }
{
    let mut places = Vec::with_capacity(alloc, NUMBERS as usize)?;
    for number in 0..NUMBERS {
        places.push(None)?;
    }
    Ok(places)
}
