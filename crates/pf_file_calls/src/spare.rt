//! The tables of a mount before and after a decided value.
ghost use Rattle.std.specs.Prelude.{◌≡◌, IfOk};
ghost use Rattle.pf_file_calls.specs.Calls.{value_applied};

use crate::calls::applied_in;
use pf_base::NoMemory;
use pf_tree::{Tree, Txn};
use std::alloc::Global;

/// The tables with the changes of a decided value.
#[derive(Drop)]
pub struct Applied {
    pub tree: Tree,
    /// The transaction that the value spells, if it spells one.
    pub txn: Option<Txn>,
}

/// The tables as they were before the last decided value, and the transaction that it spells. To make the next tables of it costs
/// two transactions, and no copy.
#[derive(Drop)]
pub(crate) struct SpareTables {
    pub(crate) before: Tree,
    pub(crate) txn: Option<Txn>,
}

impl SpareTables {
    /// The tables as they are. The one error is `NoMemory` (1).
    pub(crate) fn caught_up(self, alloc: Global) -> Result<Tree, NoMemory>
        ensures { IfOk result (λ tree. tree ≡ record self.before { tables = value_applied self.before.tables self.txn }) }
    {
        let SpareTables { before, txn } = self;
        applied_in(alloc, before, &txn)
    }
}
