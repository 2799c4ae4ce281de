//! The changes of a call.
ghost use Rattle.std.specs.Prelude.{◌≡◌, ◌+◌, ◌-◌, ◌≤◌, ◌==◌, ◌++◌, ◌∷◌, [], IfOk, OnOk, cond, is_some, length, nat_le, nat_lt, not};
ghost use Rattle.pf_base.specs.Sizes.{most_file_bytes};
ghost use Rattle.pf_tree_tables.specs.Tables.{least_free_inode, untagged_from, walk};
ghost use Rattle.pf_tree_tables.specs.declared.changes.Change.TheVariants.{AddEntry, DeleteEntry, SetInode};
ghost use Rattle.pf_tree.specs.Plans.{changes, blocks_freed, blocks_given, has_no_names, makes, node_at, removes, renames, tables_sight, unlinks};
ghost use Rattle.pf_tree.specs.Trees.{block_count, dir_refusal, file_refusal, first_some, has_rest, place_refusal, refusal, walk_refusal, when, written_size};
ghost use Rattle.pf_tree.specs.Paths.{below, is_same};
ghost use Rattle.pf_tree.specs.Held.{data_of, size_changes};
ghost use Rattle.pf_tree.specs.Faults.{PlansTo};
ghost use Rattle.pf_base.specs.declared.calls.Call.TheVariants.{Truncate, Write};

use crate::look::{dir_at, file_at, least_free, place_at, walk_to};
use crate::{TreeFault, TreeRefusal};
use pf_base::{Bytes, MOST_FILE_BYTES, NoMemory};
use pf_tree_tables::{Change, FileTables, copy_name};
use std::alloc::Global;

/// The changes that make a directory (kind 2) or an empty file (kind 1).
pub(crate) fn plan_make(
    alloc: Global,
    tables: &FileTables,
    path: &[Bytes],
    kind: u8,
) -> Result<Vec<Change>, TreeFault>
    ensures { PlansTo (first_some (place_refusal (node_at tables.now) path.now) (when 87 (nat_le (length tables.now.inodes) (least_free_inode tables.now))))
        (makes tables.now kind path.now) result }
{
    let directory = place_at(tables, path)?;
    let inode = least_free(tables)?;
    let Some(name) = path.first() else {
        return Err(TreeRefusal::Exists.into());
    };
    let changes = make_changes(alloc, kind, directory, inode, name)?;
    Ok(changes)
}

fn make_changes(
    alloc: Global,
    kind: u8,
    directory: u16,
    inode: u16,
    name: &Bytes,
) -> Result<Vec<Change>, NoMemory>
    ensures { IfOk result (λ v. v.items ≡ SetInode inode kind 0 ∷ AddEntry directory inode name.now ∷ []) }
{
    let name = copy_name(alloc, name)?;
    let mut changes = Vec::new(alloc);
    changes.push(Change::SetInode {
        inode,
        kind,
        size: 0,
    })?;
    changes.push(Change::AddEntry {
        directory,
        inode,
        name,
    })?;
    Ok(changes)
}

/// The changes that remove an empty directory.
pub(crate) fn plan_rmdir(
    alloc: Global,
    tables: &FileTables,
    path: &[Bytes],
) -> Result<Vec<Change>, TreeFault>
    ensures { PlansTo (first_some (dir_refusal (node_at tables.now) path.now)
        (when 86 (not (has_no_names tables.now.entries (walk tables.now.entries path.now))))) (removes tables.now path.now) result }
{
    let inode = dir_at(tables, path)?;
    if tables.has_names(inode) {
        return Err(TreeRefusal::NotEmpty.into());
    }
    let Some((name, rest)) = path.split_first() else {
        return Ok(Vec::new(alloc));
    };
    let directory = walk_to(tables, rest).unwrap_or(0);
    let changes = unlink_changes(alloc, directory, inode, name, &[])?;
    Ok(changes)
}

/// The changes that remove a file.
pub(crate) fn plan_unlink(
    alloc: Global,
    tables: &FileTables,
    path: &[Bytes],
) -> Result<Vec<Change>, TreeFault>
    ensures { PlansTo (file_refusal (node_at tables.now) path.now) (unlinks tables.now path.now) result }
{
    let (inode, size) = file_at(tables, path)?;
    let Some((name, rest)) = path.split_first() else {
        return Err(TreeRefusal::IsDir.into());
    };
    let directory = walk_to(tables, rest).unwrap_or(0);
    let blocks = tables.blocks_of(alloc, inode, count_blocks(size))?;
    let changes = unlink_changes(alloc, directory, inode, name, &blocks)?;
    Ok(changes)
}

/// How many blocks a file of this size has.
pub(crate) fn count_blocks(size: u32) -> u32
    ensures { result ≡ block_count size }
{
    ((size as u64 + 4095) / 4096) as u32
}

/// The changes that remove a name, and free its blocks, of which a directory has none, and its inode.
fn unlink_changes(
    alloc: Global,
    directory: u16,
    inode: u16,
    name: &Bytes,
    blocks: &[u16],
) -> Result<Vec<Change>, NoMemory>
    ensures { IfOk result (λ v. v.items ≡ DeleteEntry directory name.now ∷ (blocks_freed blocks.now ++ SetInode inode 0 0 ∷ [])) }
{
    let name = copy_name(alloc, name)?;
    let mut changes = Vec::new(alloc);
    changes.push(Change::DeleteEntry { directory, name })?;
    push_freed(&mut changes, blocks)?;
    changes.push(Change::SetInode {
        inode,
        kind: 0,
        size: 0,
    })?;
    Ok(changes)
}

/// Adds the changes that free blocks.
fn push_freed(changes: &mut Vec<Change>, blocks: &[u16]) -> Result<(), NoMemory>
    ensures { OnOk result (changes.new.items ≡ changes.old.items ++ blocks_freed blocks.now) }
{
    for block in blocks {
        changes.push(Change::SetTag {
            block: *block,
            inode: 65535,
            index: 0,
        })?;
    }
    Ok(())
}

/// The changes that give a file or a directory another path.
pub(crate) fn plan_rename(
    alloc: Global,
    tables: &FileTables,
    from: &[Bytes],
    to: &[Bytes],
) -> Result<Vec<Change>, TreeFault>
    ensures { PlansTo (first_some (walk_refusal (node_at tables.now) from.now)
        (first_some (when 89 (has_rest (below from.now to.now))) (place_refusal (node_at tables.now) to.now))) (renames tables.now from.now to.now) result }
{
    let inode = walk_to(tables, from)?;
    if is_below(from, to) {
        return Err(TreeRefusal::IntoItself.into());
    }
    let place = place_at(tables, to)?;
    let Some((name, rest)) = from.split_first() else {
        return Ok(Vec::new(alloc));
    };
    let Some(new_name) = to.first() else {
        return Err(TreeRefusal::Exists.into());
    };
    let directory = walk_to(tables, rest).unwrap_or(0);
    let changes = rename_changes(alloc, directory, name, place, inode, new_name)?;
    Ok(changes)
}

fn rename_changes(
    alloc: Global,
    directory: u16,
    name: &Bytes,
    place: u16,
    inode: u16,
    new_name: &Bytes,
) -> Result<Vec<Change>, NoMemory>
    ensures { IfOk result (λ v. v.items ≡ DeleteEntry directory name.now ∷ AddEntry place inode new_name.now ∷ []) }
{
    let name = copy_name(alloc, name)?;
    let new_name = copy_name(alloc, new_name)?;
    let mut changes = Vec::new(alloc);
    changes.push(Change::DeleteEntry { directory, name })?;
    changes.push(Change::AddEntry {
        directory: place,
        inode,
        name: new_name,
    })?;
    Ok(changes)
}

/// Whether a path goes on below another.
pub(crate) fn is_below(top: &[Bytes], path: &[Bytes]) -> bool
    ensures { result ≡ has_rest (below top.now path.now) }
{
    let Some((_, rest)) = path.split_first() else {
        return false;
    };
    if same_paths(path, top) {
        return false;
    }
    reaches(top, rest)
}

/// Whether a path is another one or goes on below it.
fn reaches(top: &[Bytes], path: &[Bytes]) -> bool
    ensures { result ≡ is_some (below top.now path.now) }
{
    if same_paths(path, top) {
        return true;
    }
    let Some((_, rest)) = path.split_first() else {
        return false;
    };
    reaches(top, rest)
}

/// Whether two paths are the same.
fn same_paths(path: &[Bytes], other: &[Bytes]) -> bool
    ensures { result ≡ is_same path.now other.now }
{
    let Some((name, rest)) = path.split_first() else {
        return other.is_empty();
    };
    let Some((other_name, other_rest)) = other.split_first() else {
        return false;
    };
    if name.as_slice() != other_name.as_slice() {
        return false;
    }
    same_paths(rest, other_rest)
}

/// The changes that give a file another size; none where it has it.
pub(crate) fn plan_size(
    alloc: Global,
    tables: &FileTables,
    first: u32,
    inode: u16,
    old: u32,
    size: u32,
) -> Result<Vec<Change>, TreeFault>
    requires old { old ≤ most_file_bytes }
    requires size { size ≤ most_file_bytes }
    ensures { PlansTo (when 87 (nat_lt (block_count old + length (untagged_from first tables.now.tags)) (block_count size)))
        (cond (size == old) [] (size_changes first tables.now.tags inode old size)) result }
{
    if size == old {
        return Ok(Vec::new(alloc));
    }
    let have = count_blocks(old);
    let want = count_blocks(size);
    let more = want.saturating_sub(have) as usize;
    let fresh = tables.free_blocks(alloc, first, more)?;
    if fresh.len() < more {
        return Err(TreeRefusal::NoSpace.into());
    }
    let blocks = tables.blocks_of(alloc, inode, have)?;
    let keep = (want as usize).min(blocks.len());
    let changes = resize_changes(alloc, inode, size, &blocks[keep..], have as u8, &fresh)?;
    Ok(changes)
}

fn resize_changes(
    alloc: Global,
    inode: u16,
    size: u32,
    dropped: &[u16],
    have: u8,
    fresh: &[u16],
) -> Result<Vec<Change>, NoMemory>
    requires { have + length fresh.now ≤ 255 }
    ensures { IfOk result (λ v. v.items ≡ SetInode inode 1 size ∷ (blocks_freed dropped.now ++ blocks_given inode have fresh.now)) }
{
    let mut changes = Vec::new(alloc);
    changes.push(Change::SetInode {
        inode,
        kind: 1,
        size,
    })?;
    push_freed(&mut changes, dropped)?;
    push_given(&mut changes, inode, have, fresh)?;
    Ok(changes)
}

/// Adds the changes that give blocks to a file, from an index on.
fn push_given(
    changes: &mut Vec<Change>,
    inode: u16,
    index: u8,
    blocks: &[u16],
) -> Result<(), NoMemory>
    requires { index + length blocks.now ≤ 255 }
    ensures { OnOk result (changes.new.items ≡ changes.old.items ++ blocks_given inode index blocks.now) }
{
    let Some((block, rest)) = blocks.split_first() else {
        return Ok(());
    };
    changes.push(Change::SetTag {
        block: *block,
        inode,
        index,
    })?;
    push_given(changes, inode, index + 1, rest)
}

/// The changes that cut or grow a file to a size.
pub(crate) fn plan_truncate(
    alloc: Global,
    tables: &FileTables,
    first: u32,
    path: &[Bytes],
    size: u32,
) -> Result<Vec<Change>, TreeFault>
    ensures { PlansTo (refusal (tables_sight (data_of first tables.now) tables.now) (Truncate path.now size))
        (changes (data_of first tables.now) tables.now (Truncate path.now size)) result }
{
    let (inode, old) = file_at(tables, path)?;
    if size > MOST_FILE_BYTES {
        return Err(TreeRefusal::TooLarge.into());
    }
    plan_size(alloc, tables, first, inode, old, size)
}

/// The changes of a write of so many bytes from an offset on.
pub(crate) fn plan_write(
    alloc: Global,
    tables: &FileTables,
    first: u32,
    path: &[Bytes],
    offset: u32,
    count: u32,
) -> Result<Vec<Change>, TreeFault>
    ensures { PlansTo (refusal (tables_sight (data_of first tables.now) tables.now) (Write path.now offset 0 count))
        (changes (data_of first tables.now) tables.now (Write path.now offset 0 count)) result }
{
    let (inode, old) = file_at(tables, path)?;
    let end = offset as u64 + count as u64;
    if end > MOST_FILE_BYTES as u64 {
        return Err(TreeRefusal::TooLarge.into());
    }
    let size = written(old, end as u32, count);
    plan_size(alloc, tables, first, inode, old, size)
}

/// The size after a write that ends at `end`.
fn written(old: u32, end: u32, count: u32) -> u32
    requires { count ≤ end }
    ensures { result ≡ written_size old (end - count) count }
{
    if count == 0 { old } else { old.max(end) }
}
