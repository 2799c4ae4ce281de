//! The entries of one directory.
ghost use Rattle.std.specs.Prelude.{◌≡◌, IfOk, OnOk, OnErr, [], replicate};
ghost use Rattle.std.specs.List.{position_or_len};
ghost use Rattle.std.specs.Str.{bytes_eq};
ghost use Rattle.pf_tree_tables.specs.declared.tables.DirectoryEntry.{DirectoryEntry as EntryIs};
ghost use Rattle.pf_tree_tables.specs.Tables.{other_entries};
ghost use Rattle.pf_check.specs.Raw.{AreDistinct, put_name};

use pf_base::{Bytes, NoMemory};
use pf_tree_tables::{DirectoryEntry, copy_name};
use std::alloc::Global;
use std::marker::Model;

/// The entries of one directory, in the order in which their names came.
#[derive(Drop)]
pub(crate) struct DirectoryRows {
    rows: Vec<DirectoryEntry>,
}

impl Model for DirectoryRows {
    ghost use Rattle.std.specs.Prelude.{List};
    ghost use Rattle.pf_tree_tables.specs.declared.tables.DirectoryEntry.{DirectoryEntry};

    ghost Value = { List DirectoryEntry };

    ghost view = { λ r. r.rows.items };
}

impl DirectoryRows {
    /// No entries. This takes no memory.
    pub(crate) fn new(alloc: Global) -> DirectoryRows
        ensures { result ≡ [] }
    {
        DirectoryRows {
            rows: Vec::new(alloc),
        }
    }

    /// The entries.
    pub(crate) fn as_slice(&self) -> &[DirectoryEntry]
        ensures { result.now ≡ self.now }
    {
        &self.rows
    }

    /// Has the name lead to the inode. `NoMemory` leaves the entries as they were.
    pub(crate) fn put(&mut self, alloc: Global, inode: u16, name: &Bytes) -> Result<(), NoMemory>
        ensures ok { OnOk result (self.new ≡ put_name self.old name.now inode) }
        ensures err { OnErr result (self.new ≡ self.old) }
        ensures distinct { AreDistinct self.old → AreDistinct self.new }
    {
        let place = place_of(&self.rows, name.as_slice());
        let name = copy_name(alloc, name)?;
        let row = DirectoryEntry { inode, name };
        if place < self.rows.len() {
            self.rows[place] = row;
        } else {
            self.rows.push(row)?;
        }
        Ok(())
    }

    /// Drops the name.
    pub(crate) fn forget(&mut self, name: &[u8])
        ensures others { self.new ≡ other_entries self.old name.now }
        ensures distinct { AreDistinct self.old → AreDistinct self.new }
    {
        self.rows.retain(|row| row.name.as_slice() != name);
    }
}

/// The place of a name; the count of the entries where it is not there.
fn place_of(rows: &[DirectoryEntry], name: &[u8]) -> usize
    ensures { result ≡ position_or_len (λ (row : EntryIs). bytes_eq row.name name.now) rows.now }
{
    for index in 0..rows.len() {
        if rows[index].name.as_slice() == name {
            return index;
        }
    }
    rows.len()
}

/// So many directories without entries.
pub(crate) fn no_rows(alloc: Global, count: usize) -> Result<Vec<DirectoryRows>, NoMemory>
    ensures { IfOk result (λ v. v.items ≡ replicate count []) }
{
    let mut directories = Vec::with_capacity(alloc, count)?;
    for made in 0..count {
        directories.push(DirectoryRows::new(alloc))?;
    }
    Ok(directories)
}
