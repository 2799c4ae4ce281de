//! The tables of a mount whose file data begin at any block, and its pending call.
ghost use Rattle.std.specs.Prelude.{◌≡◌, ◌+◌, ◌/◌, ◌<◌, ◌^◌, IfOk, None, Some, suc};
ghost use Rattle.pf_volume.specs.Volumes.{IsVolume, size_of};
ghost use Rattle.pf_tree_tables.specs.Tables.{new_tables};
ghost use Rattle.pf_txn.specs.Reading.{txn_in};
ghost use Rattle.pf_file_calls.specs.Moving.{IsTreeOf};
ghost use Rattle.pf_file_calls.specs.Calls.{FilesIs, value_applied};

use crate::calls::{Pending, applied_in};
use crate::spare::{Applied, SpareTables};
use pf_base::{Call, Names, NoMemory, Value};
use pf_tree::Tree;
use pf_txn::read_txn;
use pf_volume::Volume;
use std::alloc::Global;
use std::marker::Model;
use std::mem::replace;

/// The tables of a mount, the calls that it started, and the one that is pending. It knows nothing of ballots: what proposes
/// values brings them here once they are decided.
pub struct FileWork {
    mount: u8,
    volume: Volume,
    tree: Tree,
    spare: Option<SpareTables>,
    calls: u32,
    pending: Option<Pending>,
}

/// By hand, so that what lets it go calls this, and no crate above proves anew how its parts go.
impl Drop for FileWork {
    fn drop(self) {
        let FileWork {
            mount: _,
            volume: _,
            tree: _,
            spare: _,
            calls: _,
            pending: _,
        } = self;
    }
}

impl Model for FileWork {
    ghost use Rattle.pf_file_calls.specs.Calls.{FilesIs, IsSpareOf};
    ghost use Rattle.pf_file_calls.specs.Moving.{IsTreeOf};

    ghost Value = { FilesIs };

    ghost view = { λ w. record { mount = w.mount; volume = w.volume; first = w.tree.first; tables = w.tree.tables; calls = w.calls; pending = w.pending } };

    ghost invariant = { λ w. IsTreeOf w.volume w.tree.tables × IsSpareOf w.tree w.spare };
}

impl FileWork {
    /// The tables of a new volume whose file data begin at block `first`, and no call.
    pub fn new(alloc: Global, mount: u8, volume: Volume, first: u32) -> Result<FileWork, NoMemory>
        ensures { IfOk result (λ work. work ≡ record {
          mount = mount;
          volume = volume;
          first = first;
          tables = new_tables (size_of volume / 8);
          calls = 0;
          pending = None;
        }) }
    {
        let tree = Tree::from_block(alloc, first, volume.size() / 8)?;
        Ok(FileWork {
            mount,
            volume,
            tree,
            spare: None,
            calls: 0,
            pending: None,
        })
    }

    /// The number of the mount.
    pub fn mount(&self) -> u8
        ensures { result ≡ self.now.mount }
    {
        self.mount
    }

    /// The volume.
    pub fn volume(&self) -> Volume
        ensures { result ≡ self.now.volume }
    {
        self.volume
    }

    /// The tables.
    pub fn tree(&self) -> &Tree
        ensures held { result.now ≡ record { first = self.now.first; tables = self.now.tables } }
        ensures form { IsTreeOf self.now.volume result.now.tables }
    {
        &self.tree
    }

    /// The volume is one, and the tables are of it. It does nothing: that it is so is asked of the proof alone.
    pub fn laws(&self)
        ensures volume { IsVolume self.now.volume }
        ensures tree { IsTreeOf self.now.volume self.now.tables }
    {
        self.volume.laws();
    }

    /// How many calls were started.
    pub fn calls(&self) -> u32
        ensures { result ≡ self.now.calls }
    {
        self.calls
    }

    /// The call that has not ended, if there is one.
    pub fn pending(&self) -> &Option<Pending>
        ensures { result.now ≡ self.now.pending }
    {
        &self.pending
    }

    /// Begins a call.
    pub fn start(&mut self, call: Call<Names>)
        requires { self.old.calls + 1 < 2 ^ 32 }
        ensures { self.new ≡ record self.old { calls = suc self.old.calls; pending = Some (record { number = suc self.old.calls; call = call }) } }
    {
        self.calls += 1;
        self.pending = Some(Pending {
            number: self.calls,
            call,
        });
    }

    /// Ends the call that is pending.
    pub fn end(&mut self)
        ensures { self.new ≡ record self.old { pending = None } }
    {
        self.pending = None;
    }

    /// The tables with the changes of a decided value, if it is the spelling of a transaction. Whoever takes them over lets the next ones
    /// be made at the cost of two transactions; else those are made of a copy. The one error is `NoMemory` (1).
    pub fn applied(&mut self, alloc: Global, value: &Value) -> Result<Applied, NoMemory>
        ensures same { self.new ≡ self.old }
        ensures tables { IfOk result (λ after. after.tree.tables ≡ value_applied self.old.tables (txn_in value.now)) }
        ensures form { IfOk result (λ after. IsTreeOf self.old.volume after.tree.tables) }
        ensures first { IfOk result (λ after. after.tree.first ≡ self.old.first) }
        ensures txn { IfOk result (λ after. after.txn ≡ txn_in value.now) }
    {
        let txn = read_txn(alloc, value)?;
        let tree = self.second_tree(alloc)?;
        let tree = applied_in(alloc, tree, &txn)?;
        Ok(Applied { tree, txn })
    }

    /// The tables once more: the spare ones, or a copy where there are none.
    fn second_tree(&mut self, alloc: Global) -> Result<Tree, NoMemory>
        ensures same { self.new ≡ self.old }
        ensures tree { IfOk result (λ tree. tree ≡ record { first = self.old.first; tables = self.old.tables }) }
        ensures form { IfOk result (λ tree. IsTreeOf self.old.volume tree.tables) }
    {
        match self.spare.take() {
            Some(spare) => spare.caught_up(alloc),
            None => self.tree.copied(alloc),
        }
    }

    /// Takes over the tables with the changes of a decided value.
    pub fn take_over(&mut self, after: Applied)
        requires tables { after.tree.tables ≡ value_applied self.old.tables after.txn }
        requires first { after.tree.first ≡ self.old.first }
        ensures { self.new ≡ record self.old { tables = after.tree.tables } }
    {
        let Applied { tree, txn } = after;
        let before = replace(&mut self.tree, tree);
        self.spare = Some(SpareTables { before, txn });
    }
}
