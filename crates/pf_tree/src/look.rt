//! Look-ups along paths. A path is a list of names, the last one first.
ghost use Rattle.std.specs.Prelude.{◌≡◌, ◌≤◌, Some, IfOk, is_some, length, map, nat_le, not};
ghost use Rattle.std.specs.Option.{option_and_then};
ghost use Rattle.pf_tree_tables.specs.Tables.{entry_at, least_free_inode, names_in, walk};
ghost use Rattle.pf_tree_tables.specs.declared.tables.DirectoryEntry.{DirectoryEntry as EntryIs};
ghost use Rattle.pf_tree.specs.Plans.{node_at, node_of};
ghost use Rattle.pf_tree.specs.Trees.{dir_refusal, file_refusal, file_size, place_refusal, walk_refusal, when};
ghost use Rattle.pf_tree.specs.Held.{IsFileAt, IsParent, refusal_of_step};
ghost use Rattle.pf_tree.specs.Faults.{TreeRefuses};

use crate::TreeRefusal;
use pf_base::{Bytes, NoMemory};
use pf_tree_tables::{DirectoryEntry, FileTables, Inode, copy_name};
use std::alloc::Global;

/// The inode at a path, and what it is.
pub(crate) fn walk_to(tables: &FileTables, path: &[Bytes]) -> Result<u16, TreeRefusal>
    ensures { TreeRefuses (walk_refusal (node_at tables.now) path.now) result (λ i. walk tables.now.entries path.now ≡ Some i) }
{
    let Some((name, rest)) = path.split_first() else {
        return Ok(0);
    };
    let directory = walk_to(tables, rest)?;
    step(tables, directory, name)
}

/// The inode to which the names of a path lead, if they lead to one.
pub(crate) fn lead(tables: &FileTables, path: &[Bytes]) -> Option<u16>
    ensures { result ≡ walk tables.now.entries path.now }
{
    let Some((name, rest)) = path.split_first() else {
        return Some(0);
    };
    let directory = lead(tables, rest)?;
    tables.entry(directory, name.as_slice())
}

/// The size of the file at a path, if it is one.
pub(crate) fn size_of_file(tables: &FileTables, path: &[Bytes]) -> Option<u32>
    ensures { result ≡ file_size (node_at tables.now path.now) }
{
    let inode = lead(tables, path)?;
    match tables.inode(inode) {
        Some(Inode::File { size }) => Some(size),
        _ => None,
    }
}

/// One name further.
fn step(tables: &FileTables, directory: u16, name: &Bytes) -> Result<u16, TreeRefusal>
    ensures { TreeRefuses (refusal_of_step tables.now directory name.now) result (λ i. entry_at tables.now.entries directory name.now ≡ Some i) }
{
    if let Some(Inode::File { .. }) = tables.inode(directory) {
        return Err(TreeRefusal::NotDir);
    }
    let Some(inode) = tables.entry(directory, name.as_slice()) else {
        return Err(TreeRefusal::NoEntry);
    };
    if tables.inode(inode).is_none() {
        return Err(TreeRefusal::NoEntry);
    }
    Ok(inode)
}

/// Whether something stands at a name of a directory.
fn is_taken(tables: &FileTables, directory: u16, name: &Bytes) -> bool
    ensures { result ≡ is_some (option_and_then (node_of tables.now) (entry_at tables.now.entries directory name.now)) }
{
    let Some(inode) = tables.entry(directory, name.as_slice()) else {
        return false;
    };
    tables.inode(inode).is_some()
}

/// The directory of a place where nothing stands yet.
pub(crate) fn place_at(tables: &FileTables, path: &[Bytes]) -> Result<u16, TreeRefusal>
    ensures { TreeRefuses (place_refusal (node_at tables.now) path.now) result (IsParent tables.now.entries path.now) }
{
    let Some((name, rest)) = path.split_first() else {
        return Err(TreeRefusal::Exists);
    };
    let directory = walk_to(tables, rest)?;
    let Some(Inode::Directory) = tables.inode(directory) else {
        return Err(TreeRefusal::NotDir);
    };
    if is_taken(tables, directory, name) {
        return Err(TreeRefusal::Exists);
    }
    Ok(directory)
}

/// The inode and the size of the file at a path.
pub(crate) fn file_at(tables: &FileTables, path: &[Bytes]) -> Result<(u16, u32), TreeRefusal>
    ensures { TreeRefuses (file_refusal (node_at tables.now) path.now) result (λ x. IsFileAt tables.now path.now x.0 x.1) }
{
    let inode = walk_to(tables, path)?;
    match tables.inode(inode) {
        Some(Inode::File { size }) => Ok((inode, size)),
        Some(Inode::Directory) => Err(TreeRefusal::IsDir),
        None => Err(TreeRefusal::NoEntry),
    }
}

/// The inode of the directory at a path.
pub(crate) fn dir_at(tables: &FileTables, path: &[Bytes]) -> Result<u16, TreeRefusal>
    ensures { TreeRefuses (dir_refusal (node_at tables.now) path.now) result (λ i. walk tables.now.entries path.now ≡ Some i) }
{
    let inode = walk_to(tables, path)?;
    let Some(Inode::Directory) = tables.inode(inode) else {
        return Err(TreeRefusal::NotDir);
    };
    Ok(inode)
}

/// The least free inode; `NoSpace` where there is none.
pub(crate) fn least_free(tables: &FileTables) -> Result<u16, TreeRefusal>
    ensures { TreeRefuses (when 87 (nat_le (length tables.now.inodes) (least_free_inode tables.now))) result (λ i. i ≡ least_free_inode tables.now) }
{
    tables.least_free().ok_or(TreeRefusal::NoSpace)
}

/// Copies of the names of rows.
pub(crate) fn copy_names(alloc: Global, rows: &[DirectoryEntry]) -> Result<Vec<Bytes>, NoMemory>
    ensures { IfOk result (λ names. names.items ≡ map (λ (row : EntryIs). row.name) rows.now) }
{
    let mut names = Vec::with_capacity(alloc, rows.len())?;
    for row in rows {
        let name = copy_name(alloc, &row.name)?;
        names.push(name)?;
    }
    Ok(names)
}
