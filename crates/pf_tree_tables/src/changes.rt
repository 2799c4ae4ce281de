//! The changes of a transaction.
ghost use Rattle.std.specs.Prelude.{◌≡◌};

use pf_base::Bytes;
use std::marker::Model;

/// One change of the tables.
#[derive(Debug, Drop)]
pub enum Change {
    /// Kind 0 frees the inode, 1 makes it a file of this size, 2 a directory.
    SetInode {
        inode: u16,
        kind: u8,
        size: u32,
    },
    /// The name in the directory is that of the inode from now on.
    AddEntry {
        directory: u16,
        inode: u16,
        name: Bytes,
    },
    /// The directory has no such name any more.
    DeleteEntry {
        directory: u16,
        name: Bytes,
    },
    /// The block is the one of this index of the inode's file; inode 65,535 means that it is free.
    SetTag {
        block: u16,
        inode: u16,
        index: u8,
    },
}

/// A list of changes.
#[derive(Debug, Drop)]
pub struct Changes {
    items: Vec<Change>,
}

impl Model for Changes {
    ghost use Rattle.std.specs.Prelude.{List};
    ghost use Rattle.pf_tree_tables.specs.declared.changes.Change.{Change};

    ghost Value = { List Change };

    ghost view = { λ c. c.items.items };
}

impl Changes {
    /// The changes of a vector. This takes no memory.
    pub fn new(items: Vec<Change>) -> Changes
        ensures { result ≡ items.items }
    {
        Changes { items }
    }

    /// The changes.
    pub fn as_slice(&self) -> &[Change]
        ensures { result.now ≡ self.now }
    {
        &self.items
    }
}

/// A transaction: the mount's number, the number of its call, and the changes in order.
#[derive(Debug, Drop)]
pub struct Txn {
    pub mount: u8,
    pub number: u32,
    pub changes: Changes,
}
