//! Copies of names, changes and directories, and new directories.
ghost use Rattle.std.specs.Prelude.{◌≡◌, [], IfOk, length, replicate};
ghost use Rattle.pf_tree_tables.specs.Shelves.{lists_of};

use crate::Change;
use crate::rows::Rows;
use pf_base::{Bytes, NoMemory};
use std::alloc::Global;

/// So many directories without names.
pub(crate) fn no_names(alloc: Global, count: usize) -> Result<Vec<Rows>, NoMemory>
    ensures { IfOk result (λ v. lists_of v.items ≡ replicate count []) }
{
    let mut directories = Vec::with_capacity(alloc, count)?;
    for made in 0..count {
        directories.push(Rows::new(alloc))?;
    }
    Ok(directories)
}

/// Copies of the names of directories.
pub(crate) fn copy_directories(alloc: Global, directories: &[Rows]) -> Result<Vec<Rows>, NoMemory>
    ensures lists { IfOk result (λ v. lists_of v.items ≡ lists_of directories.now) }
    ensures count { IfOk result (λ v. length v.items ≡ length directories.now) }
{
    let mut copies = Vec::with_capacity(alloc, directories.len())?;
    for rows in directories {
        let copy = rows.copied(alloc)?;
        copies.push(copy)?;
    }
    Ok(copies)
}

/// A copy of a name.
pub fn copy_name(alloc: Global, name: &Bytes) -> Result<Bytes, NoMemory>
    ensures { IfOk result (λ n. n ≡ name.now) }
{
    Ok(Bytes::new(Vec::from_slice(alloc, name.as_slice())?))
}

/// A copy of a change.
fn copy_change(alloc: Global, change: &Change) -> Result<Change, NoMemory>
    ensures { IfOk result (λ c. c ≡ change.now) }
{
    match change {
        Change::SetInode { inode, kind, size } => Ok(Change::SetInode {
            inode: *inode,
            kind: *kind,
            size: *size,
        }),
        Change::AddEntry {
            directory,
            inode,
            name,
        } => {
            let name = copy_name(alloc, name)?;
            Ok(Change::AddEntry {
                directory: *directory,
                inode: *inode,
                name,
            })
        }
        Change::DeleteEntry { directory, name } => {
            let name = copy_name(alloc, name)?;
            Ok(Change::DeleteEntry {
                directory: *directory,
                name,
            })
        }
        Change::SetTag {
            block,
            inode,
            index,
        } => Ok(Change::SetTag {
            block: *block,
            inode: *inode,
            index: *index,
        }),
    }
}

/// A copy of the changes.
pub(crate) fn copy_changes(alloc: Global, changes: &[Change]) -> Result<Vec<Change>, NoMemory>
    ensures { IfOk result (λ v. v.items ≡ changes.now) }
{
    let mut copies = Vec::with_capacity(alloc, changes.len())?;
    for change in changes {
        let copy = copy_change(alloc, change)?;
        copies.push(copy)?;
    }
    Ok(copies)
}
