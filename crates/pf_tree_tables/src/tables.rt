//! The tables.

use pf_base::Bytes;

/// An inode in use.
#[derive(Clone, Copy, Debug, PartialEq, Eq, PartialOrd, Ord)]
pub enum Inode {
    File { size: u32 },
    Directory,
}

/// A name in a directory.
#[derive(Debug, Drop)]
pub struct DirectoryEntry {
    pub inode: u16,
    pub name: Bytes,
}

/// What a block holds: the block of this index of a file.
#[derive(Clone, Copy, Debug, PartialEq, Eq, PartialOrd, Ord)]
pub struct Tag {
    pub inode: u16,
    pub index: u32,
}
