//! The tables of a mount.
ghost use Rattle.std.specs.Prelude.{◌≡◌, ◌≤◌, IfOk, OnOk, OnErr, length, map};
ghost use Rattle.pf_tree_tables.specs.Names.{NamesAreInOrder};
ghost use Rattle.pf_tree_tables.specs.Tables.{TablesAreWhole, applied, block_of, names_in, new_tables};
ghost use Rattle.pf_tree_tables.specs.declared.tables.DirectoryEntry.{DirectoryEntry as EntryIs};
ghost use Rattle.pf_tree.specs.Plans.{changes, found, node_at, tables_sight};
ghost use Rattle.pf_tree.specs.Held.{Held, data_of};
ghost use Rattle.pf_tree.specs.Listings.{Lists, listing};
ghost use Rattle.pf_tree.specs.Standing.{TablesStandFor};
ghost use Rattle.pf_tree.specs.Faults.{PlansTo};
ghost use Rattle.pf_base.specs.Sizes.{first_data_block};
ghost use Rattle.pf_tree.specs.Trees.{Tree as TreeIs, file_size, refusal};

use crate::TreeFault;
use crate::listing::{Listing, list_tree};
use crate::look::{copy_names, dir_at, file_at, lead, size_of_file, walk_to};
use crate::plan::{plan_make, plan_rename, plan_rmdir, plan_truncate, plan_unlink, plan_write};
use pf_base::{Call, FIRST_DATA_BLOCK, Names, NoMemory};
use pf_tree_tables::{Change, FileTables, Txn};
use std::alloc::Global;
use std::marker::Model;

/// The tables of a mount, and the first of its data blocks.
pub struct Tree {
    first: u32,
    tables: FileTables,
}

/// By hand, so that what lets it go calls this, and no crate above proves anew how its parts go.
impl Drop for Tree {
    fn drop(self) {
        let Tree {
            first: _,
            tables: _,
        } = self;
    }
}

impl Model for Tree {
    ghost use Rattle.pf_tree.specs.Held.{Held};

    ghost Value = { Held };

    ghost view = { λ t. record { first = t.first; tables = t.tables } };
}

impl Tree {
    /// The tables of a new volume of `blocks` blocks, of which those from [`FIRST_DATA_BLOCK`] on hold data.
    pub fn new(alloc: Global, blocks: u32) -> Result<Tree, NoMemory>
        requires { blocks ≤ 4096 }
        ensures { IfOk result (λ tree. tree ≡ record { first = first_data_block; tables = new_tables blocks }) }
    {
        Tree::from_block(alloc, FIRST_DATA_BLOCK as u32, blocks)
    }

    /// The tables of a new volume of `blocks` blocks, of which those from `first` on hold data.
    pub fn from_block(alloc: Global, first: u32, blocks: u32) -> Result<Tree, NoMemory>
        requires { blocks ≤ 4096 }
        ensures { IfOk result (λ tree. tree ≡ record { first = first; tables = new_tables blocks }) }
    {
        let tables = FileTables::new(alloc, blocks)?;
        Ok(Tree { first, tables })
    }

    /// A copy.
    pub fn copied(&self, alloc: Global) -> Result<Tree, NoMemory>
        ensures { IfOk result (λ tree. tree ≡ self.now) }
    {
        let tables = self.tables.copied(alloc)?;
        Ok(Tree {
            first: self.first,
            tables,
        })
    }

    /// Carries out the changes of a transaction, one by one.
    pub fn apply(&mut self, alloc: Global, txn: &Txn) -> Result<(), NoMemory>
        ensures ok { OnOk result (self.new ≡ record self.old { tables = applied self.old.tables txn.now.changes }) }
        ensures err { OnErr result (self.new ≡ self.old) }
    {
        self.tables.apply(alloc, txn)
    }

    /// Whatever was carried out, the root is a directory, and no file is larger than 196,608 bytes. It does nothing: that it is so is asked of the proof alone.
    pub fn laws(&self)
        ensures whole { TablesAreWhole self.now.tables }
    {
        self.tables.laws();
    }

    /// The inode at a path; 0 where its names lead to none.
    pub fn inode_at(&self, path: &Names) -> u16
        ensures { result ≡ found self.now.tables path.now }
    {
        lead(&self.tables, path.as_slice()).unwrap_or(0)
    }

    /// The size of the file at a path; `None` exactly where no file stands there.
    pub fn size_at(&self, path: &Names) -> Option<u32>
        ensures { result ≡ file_size (node_at self.now.tables path.now) }
    {
        size_of_file(&self.tables, path.as_slice())
    }

    /// The block of an index of the file with an inode; the count of blocks where it has none.
    pub fn block_at(&self, inode: u16, index: u32) -> u16
        ensures block { result ≡ block_of self.now.tables.tags inode index }
        ensures low { result ≤ length self.now.tables.tags }
    {
        self.tables.block_of(inode, index)
    }

    /// The names in the directory at a path, in ascending byte order; none where no directory stands there. The one error is `NoMemory` (1).
    pub fn names_at(&self, alloc: Global, path: &Names) -> Result<Names, NoMemory>
        ensures order { IfOk result (λ names. NamesAreInOrder names) }
        ensures names { IfOk result (λ names. names ≡ map (λ (row : EntryIs). row.name) (names_in self.now.tables.entries (found self.now.tables path.now))) }
    {
        let rows = self.tables.names_in(self.inode_at(path));
        let names = copy_names(alloc, rows)?;
        Ok(Names::new(names))
    }

    /// The paths of the tree in the order of their bytes, those of equal bytes in the order of their inodes. Where the tables stand for no
    /// tree, those inodes in use are listed from which names lead up to the root, each once. The one error is `NoMemory` (1).
    pub fn listing(&self, alloc: Global) -> Result<Listing, NoMemory>
        ensures rows { IfOk result (λ rows. rows ≡ listing self.now.tables) }
        ensures tree { (tree : TreeIs) → TablesStandFor (data_of self.now.first self.now.tables) self.now.tables tree → IfOk result (Lists tree) }
    {
        let rows = list_tree(alloc, &self.tables)?;
        Ok(Listing::new(rows))
    }

    /// The changes of a call, in order; none where the tree stays.
    pub fn plan_call(&self, alloc: Global, call: &Call<Names>) -> Result<Vec<Change>, TreeFault>
        ensures { PlansTo (refusal (tables_sight (data_of self.now.first self.now.tables) self.now.tables) call.now)
            (changes (data_of self.now.first self.now.tables) self.now.tables call.now) result }
    {
        plan_all(alloc, &self.tables, self.first, call)
    }
}

/// The changes of a call on these tables.
fn plan_all(
    alloc: Global,
    tables: &FileTables,
    first: u32,
    call: &Call<Names>,
) -> Result<Vec<Change>, TreeFault>
    ensures { PlansTo (refusal (tables_sight (data_of first tables.now) tables.now) call.now) (changes (data_of first tables.now) tables.now call.now) result }
{
    match call {
        Call::Mkdir { path } => plan_make(alloc, tables, path.as_slice(), 2),
        Call::Create { path } => plan_make(alloc, tables, path.as_slice(), 1),
        Call::Write {
            path,
            offset,
            count,
            ..
        } => plan_write(alloc, tables, first, path.as_slice(), *offset, *count),
        Call::Truncate { path, size } => plan_truncate(
            alloc,
            tables,
            first,
            path.as_slice(),
            *size,
        ),
        Call::Rename { from, to } => plan_rename(alloc, tables, from.as_slice(), to.as_slice()),
        Call::Unlink { path } => plan_unlink(alloc, tables, path.as_slice()),
        Call::Rmdir { path } => plan_rmdir(alloc, tables, path.as_slice()),
        Call::Read { path, .. } => {
            file_at(tables, path.as_slice())?;
            Ok(Vec::new(alloc))
        }
        Call::Stat { path } => {
            walk_to(tables, path.as_slice())?;
            Ok(Vec::new(alloc))
        }
        Call::List { path } => {
            dir_at(tables, path.as_slice())?;
            Ok(Vec::new(alloc))
        }
    }
}
