//! The names of one directory.
ghost use Rattle.std.specs.Prelude.{◌≡◌, ◌+◌, ◌≤◌, [], None, IfOk, MatchResult, OnOk};
ghost use Rattle.std.specs.Cmp.Lexicographic.{slice_cmp};
ghost use Rattle.std.specs.Ordering.{nat_cmp};
ghost use Rattle.pf_tree_tables.specs.Tables.{IsAscending, IsGap, IsThere, entry_found, is_nil, other_entries, put_entry};

use crate::DirectoryEntry;
use crate::copies::copy_name;
use pf_base::NoMemory;
use std::alloc::Global;
use std::cmp::Ordering;
use std::marker::Model;

/// The names of one directory, which ascend, seen as a list with room for so many more.
#[derive(Drop)]
pub(crate) struct Rows {
    rows: Vec<DirectoryEntry>,
}

impl Model for Rows {
    ghost use Rattle.std.specs.Prelude.{◌-◌, vec_len, vec_capacity};
    ghost use Rattle.pf_tree_tables.specs.Shelves.{Shelf};

    ghost Value = { Shelf };

    ghost view = { λ r. record { list = r.rows.items; room = vec_capacity r.rows - vec_len r.rows } };

    ghost use Rattle.pf_tree_tables.specs.Tables.{IsAscending};

    ghost invariant = { λ r. IsAscending r.rows.items };
}

impl Rows {
    /// No names, and no room. This takes no memory.
    pub(crate) fn new(alloc: Global) -> Rows
        ensures { result.list ≡ [] }
    {
        Rows {
            rows: Vec::new(alloc),
        }
    }

    /// A copy.
    pub(crate) fn copied(&self, alloc: Global) -> Result<Rows, NoMemory>
        ensures { IfOk result (λ rows. rows.list ≡ self.now.list) }
    {
        let rows = copy_rows(alloc, &self.rows)?;
        Ok(Rows { rows })
    }

    /// Takes room for `count` more names.
    pub(crate) fn reserve(&mut self, count: usize) -> Result<(), NoMemory>
        ensures list { self.new.list ≡ self.old.list }
        ensures room { OnOk result (count ≤ self.new.room) }
        ensures kept { self.old.room ≤ self.new.room }
    {
        self.rows.reserve(count)?;
        Ok(())
    }

    /// Drops the name.
    pub(crate) fn forget(&mut self, name: &[u8])
        ensures list { self.new.list ≡ other_entries self.old.list name.now }
        ensures room { self.old.room ≤ self.new.room }
    {
        match place_of(&self.rows, name) {
            Ok(place) => {
                self.rows.remove(place);
            }
            Err(_) => {}
        }
    }

    /// Adds a name that is not there, for which there is room.
    pub(crate) fn add(&mut self, entry: DirectoryEntry)
        requires room { 1 ≤ self.old.room }
        requires fresh { entry_found self.old.list entry.name ≡ None }
        ensures list { self.new.list ≡ put_entry self.old.list entry }
        ensures room { self.old.room ≤ self.new.room + 1 }
    {
        match place_of(&self.rows, entry.name.as_slice()) {
            Ok(_) => unreachable!(),
            Err(place) => {
                if let Err(_) = self.rows.insert(place, entry) {
                    unreachable!();
                }
            }
        }
    }

    /// The inode of a name.
    pub(crate) fn find(&self, name: &[u8]) -> Option<u16>
        ensures { result ≡ entry_found self.now.list name.now }
    {
        match place_of(&self.rows, name) {
            Ok(place) => Some(self.rows[place].inode),
            Err(_) => None,
        }
    }

    /// Whether there are no names.
    pub(crate) fn is_empty(&self) -> bool
        ensures { result ≡ is_nil self.now.list }
    {
        self.rows.is_empty()
    }

    /// The names, which ascend.
    pub(crate) fn as_slice(&self) -> &[DirectoryEntry]
        ensures list { result.now ≡ self.now.list }
        ensures ascending { IsAscending result.now }
    {
        &self.rows
    }
}

/// The place of a name among ascending ones, or the place where it would stand.
fn place_of(rows: &[DirectoryEntry], name: &[u8]) -> Result<usize, usize>
    requires { IsAscending rows.now }
    ensures { MatchResult result (IsThere rows.now name.now) (IsGap rows.now name.now) }
{
    rows.binary_search_by(|row| compare(row, name))
}

/// How the name of a row and another follow each other.
fn compare(row: &DirectoryEntry, name: &[u8]) -> Ordering
    ensures { result ≡ slice_cmp nat_cmp row.now.name name.now }
{
    row.name.as_slice().cmp(name)
}

/// Copies of rows.
fn copy_rows(alloc: Global, rows: &[DirectoryEntry]) -> Result<Vec<DirectoryEntry>, NoMemory>
    ensures { IfOk result (λ v. v.items ≡ rows.now) }
{
    let mut copies = Vec::with_capacity(alloc, rows.len())?;
    for row in rows {
        let name = copy_name(alloc, &row.name)?;
        copies.push(DirectoryEntry {
            inode: row.inode,
            name,
        })?;
    }
    Ok(copies)
}
