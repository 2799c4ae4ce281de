//! The tables of a file system: inodes, the names in directories, the tags of blocks, and what a transaction changes in them.
#![tactic(auto)]

mod changes;
mod copies;
mod edits;
mod file_tables;
mod index;
mod look;
mod places;
mod rows;
mod sorted;
mod tables;

pub use changes::{Change, Changes, Txn};
pub use copies::copy_name;
pub use edits::{MOST_FILE_BLOCKS, NO_INODE};
pub use file_tables::{FileTables, INODES};
pub use tables::{DirectoryEntry, Inode, Tag};
