//! The tables of a file system.
ghost use Rattle.std.specs.Prelude.{◌≡◌, ◌<◌, ◌≤◌, IfOk, MatchOption, OnOk, OnErr, length, take};
ghost use Rattle.pf_tree_tables.specs.Tables.{IsAscending, TablesAreWhole, applied, block_of, blocks_of, entry_at, has_names, inode_at, least_free_inode, names_in, new_tables, untagged_from};

use crate::copies::{copy_changes, copy_directories, no_names};
use crate::edits::{ROOT, carry_out, make_room};
use crate::look::{block_of, blocks_of, free_blocks, inode_of, least_free};
use crate::places::ValuePlaces;
use crate::rows::Rows;
use crate::{DirectoryEntry, Inode, Tag, Txn};
use pf_base::NoMemory;
use std::alloc::Global;
use std::marker::Model;

/// The count of inodes of a volume.
pub const INODES: u16 = 1024;

/// The tables of a file system: 1,024 inodes, the names in directories, and a tag for each of up to 4,096 blocks.
#[derive(Drop)]
pub struct FileTables {
    inodes: ValuePlaces<Option<Inode>>,
    directories: Vec<Rows>,
    tags: ValuePlaces<Option<Tag>>,
}

impl Model for FileTables {
    ghost use Rattle.pf_tree_tables.specs.Tables.{TablesAreHeld, Tables};
    ghost use Rattle.pf_tree_tables.specs.Shelves.{tables_of};

    ghost Value = { Tables };

    ghost view = { λ t. tables_of t.inodes t.directories.items t.tags };

    ghost invariant = { λ t. TablesAreHeld (tables_of t.inodes t.directories.items t.tags) };
}

impl FileTables {
    /// The tables of a new volume of `blocks` blocks: inode 0 is the root directory, and all else is free. The one error is `NoMemory` (1).
    pub fn new(alloc: Global, blocks: u32) -> Result<FileTables, NoMemory>
        requires { blocks ≤ 4096 }
        ensures { IfOk result (λ tables. tables ≡ new_tables blocks) }
    {
        let mut inodes = ValuePlaces::new(alloc, INODES as u32, None)?;
        inodes.set(ROOT, Some(Inode::Directory));
        let directories = no_names(alloc, INODES as usize)?;
        let tags = ValuePlaces::new(alloc, blocks, None)?;
        Ok(FileTables {
            inodes,
            directories,
            tags,
        })
    }

    /// A copy. The one error is `NoMemory` (1).
    pub fn copied(&self, alloc: Global) -> Result<FileTables, NoMemory>
        ensures { IfOk result (λ tables. tables ≡ self.now) }
    {
        let inodes = self.inodes.copied(alloc)?;
        let directories = copy_directories(alloc, &self.directories)?;
        let tags = self.tags.copied(alloc)?;
        Ok(FileTables {
            inodes,
            directories,
            tags,
        })
    }

    /// Carries out the changes of a transaction, one by one. A change is passed over where it names an inode or a block that is not
    /// there, an index past 47 or a size above 196,608, or where the root would be no directory any more. The one error is `NoMemory`
    /// (1), which leaves the tables as they were.
    pub fn apply(&mut self, alloc: Global, txn: &Txn) -> Result<(), NoMemory>
        ensures ok { OnOk result (self.new ≡ applied self.old txn.now.changes) }
        ensures err { OnErr result (self.new ≡ self.old) }
    {
        let changes = copy_changes(alloc, txn.changes.as_slice())?;
        make_room(&mut self.directories, &changes)?;
        carry_out(
            &mut self.inodes,
            &mut self.directories,
            &mut self.tags,
            changes,
        );
        Ok(())
    }

    /// Whatever was carried out, there are at most 4,096 blocks, inode 0 is a directory, and no file is larger than 196,608 bytes.
    /// It does nothing: that it is so is asked of the proof alone.
    pub fn laws(&self)
        ensures few { length self.now.tags ≤ 4096 }
        ensures whole { TablesAreWhole self.now }
    {
        let _tags = &self.tags;
    }

    /// An inode, if it is in use. Inode 0 is a directory, and no file is larger than 196,608 bytes.
    pub fn inode(&self, inode: u16) -> Option<Inode>
        ensures inode { result ≡ inode_at self.now inode }
        ensures whole { TablesAreWhole self.now }
    {
        inode_of(self.inodes.as_slice(), inode)
    }

    /// The inode of a name in a directory.
    pub fn entry(&self, directory: u16, name: &[u8]) -> Option<u16>
        ensures { result ≡ entry_at self.now.entries directory name.now }
    {
        match self.directories.get(directory as usize) {
            Some(rows) => rows.find(name),
            None => None,
        }
    }

    /// Whether a directory has names.
    pub fn has_names(&self, directory: u16) -> bool
        ensures { result ≡ has_names self.now.entries directory }
    {
        match self.directories.get(directory as usize) {
            Some(rows) => !rows.is_empty(),
            None => false,
        }
    }

    /// The names in a directory, in ascending byte order.
    pub fn names_in(&self, directory: u16) -> &[DirectoryEntry]
        ensures names { result.now ≡ names_in self.now.entries directory }
        ensures ascending { IsAscending result.now }
    {
        match self.directories.get(directory as usize) {
            Some(rows) => rows.as_slice(),
            None => &[],
        }
    }

    /// The least free inode; `None` exactly where all 1,024 are in use.
    pub fn least_free(&self) -> Option<u16>
        ensures { MatchOption result (length self.now.inodes ≤ least_free_inode self.now)
            (λ i. (i ≡ least_free_inode self.now) × (i < length self.now.inodes)) }
    {
        least_free(&self.inodes)
    }

    /// The block of an index of the file with an inode; the count of blocks where it has none.
    pub fn block_of(&self, inode: u16, index: u32) -> u16
        ensures block { result ≡ block_of self.now.tags inode index }
        ensures low { result ≤ length self.now.tags }
    {
        block_of(&self.tags, inode, index)
    }

    /// The blocks of the first `count` indices of the file with an inode, in order. The one error is `NoMemory` (1).
    pub fn blocks_of(&self, alloc: Global, inode: u16, count: u32) -> Result<Vec<u16>, NoMemory>
        ensures { IfOk result (λ v. v.items ≡ blocks_of self.now.tags inode count) }
    {
        blocks_of(alloc, &self.tags, inode, count)
    }

    /// The least free blocks from the first one on, up to so many. The one error is `NoMemory` (1).
    pub fn free_blocks(&self, alloc: Global, first: u32, count: usize) -> Result<Vec<u16>, NoMemory>
        ensures { IfOk result (λ v. v.items ≡ take count (untagged_from first self.now.tags)) }
    {
        free_blocks(alloc, &self.tags, first, count)
    }
}
