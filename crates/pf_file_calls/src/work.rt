//! The tables of a mount and its pending call, where file data begin at [`FIRST_DATA_BLOCK`].
ghost use Rattle.std.specs.Prelude.{◌≡◌, ◌+◌, ◌/◌, ◌<◌, ◌^◌, IfOk, None, Some, suc};
ghost use Rattle.pf_volume.specs.Volumes.{size_of};
ghost use Rattle.pf_tree_tables.specs.Tables.{new_tables};
ghost use Rattle.pf_base.specs.Sizes.{first_data_block};
ghost use Rattle.pf_txn.specs.Reading.{txn_in};
ghost use Rattle.pf_file_calls.specs.Moving.{IsTreeOf};
ghost use Rattle.pf_file_calls.specs.Calls.{WorkIs, value_applied};

use crate::calls::Pending;
use crate::files::FileWork;
use crate::spare::Applied;
use pf_base::{Call, FIRST_DATA_BLOCK, Names, NoMemory, Value};
use pf_tree::Tree;
use pf_volume::Volume;
use std::alloc::Global;
use std::marker::Model;

/// The tables of a mount, the calls that it started, and the one that is pending, where file data begin at [`FIRST_DATA_BLOCK`].
#[derive(Drop)]
pub struct CallWork {
    files: FileWork,
}

impl Model for CallWork {
    ghost use Rattle.std.specs.Prelude.{◌≡◌};
    ghost use Rattle.pf_base.specs.Sizes.{first_data_block};
    ghost use Rattle.pf_file_calls.specs.Calls.{WorkIs, work_of};

    ghost Value = { WorkIs };

    ghost view = { λ w. work_of w.files };

    ghost invariant = { λ w. w.files.first ≡ first_data_block };
}

impl CallWork {
    /// The tables of a new volume, and no call.
    pub fn new(alloc: Global, mount: u8, volume: Volume) -> Result<CallWork, NoMemory>
        ensures { IfOk result (λ work. work ≡ record { mount = mount; volume = volume; tables = new_tables (size_of volume / 8); calls = 0; pending = None }) }
    {
        let files = FileWork::new(alloc, mount, volume, FIRST_DATA_BLOCK as u32)?;
        Ok(CallWork { files })
    }

    /// The number of the mount.
    pub fn mount(&self) -> u8
        ensures { result ≡ self.now.mount }
    {
        self.files.mount()
    }

    /// The volume.
    pub fn volume(&self) -> Volume
        ensures { result ≡ self.now.volume }
    {
        self.files.volume()
    }

    /// The tables.
    pub fn tree(&self) -> &Tree
        ensures tables { result.now.tables ≡ self.now.tables }
        ensures form { IsTreeOf self.now.volume result.now.tables }
        ensures first { result.now.first ≡ first_data_block }
    {
        self.files.tree()
    }

    /// How many calls were started.
    pub fn calls(&self) -> u32
        ensures { result ≡ self.now.calls }
    {
        self.files.calls()
    }

    /// The call that has not ended, if there is one.
    pub fn pending(&self) -> &Option<Pending>
        ensures { result.now ≡ self.now.pending }
    {
        self.files.pending()
    }

    /// Begins a call.
    pub fn start(&mut self, call: Call<Names>)
        requires { self.old.calls + 1 < 2 ^ 32 }
        ensures { self.new ≡ record self.old { calls = suc self.old.calls; pending = Some (record { number = suc self.old.calls; call = call }) } }
    {
        self.files.start(call);
    }

    /// Ends the call that is pending.
    pub fn end(&mut self)
        ensures { self.new ≡ record self.old { pending = None } }
    {
        self.files.end();
    }

    /// The tables with the changes of a decided value, if it is the spelling of a transaction. Whoever takes them over lets the next ones
    /// be made at the cost of two transactions; else those are made of a copy. The one error is `NoMemory` (1).
    pub fn applied(&mut self, alloc: Global, value: &Value) -> Result<Applied, NoMemory>
        ensures same { self.new ≡ self.old }
        ensures tables { IfOk result (λ after. after.tree.tables ≡ value_applied self.old.tables (txn_in value.now)) }
        ensures form { IfOk result (λ after. IsTreeOf self.old.volume after.tree.tables) }
        ensures first { IfOk result (λ after. after.tree.first ≡ first_data_block) }
        ensures txn { IfOk result (λ after. after.txn ≡ txn_in value.now) }
    {
        self.files.applied(alloc, value)
    }

    /// Takes over the tables with the changes of a decided value.
    pub fn take_over(&mut self, after: Applied)
        requires tables { after.tree.tables ≡ value_applied self.old.tables after.txn }
        requires first { after.tree.first ≡ first_data_block }
        ensures { self.new ≡ record self.old { tables = after.tree.tables } }
    {
        self.files.take_over(after);
    }
}
