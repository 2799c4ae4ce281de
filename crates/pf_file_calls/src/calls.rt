//! The calls of a mount on its tables, one at a time.
ghost use Rattle.std.specs.Prelude.{◌≡◌, ◌/◌, ◌<◌, IfOk, None, Some};
ghost use Rattle.pf_tree.specs.Held.{data_of};
ghost use Rattle.pf_tree.specs.Plans.{node_at};
ghost use Rattle.pf_tree.specs.Trees.{size_at};
ghost use Rattle.pf_file_calls.specs.Moving.{IsTreeOf};
ghost use Rattle.pf_file_calls.specs.Calls.{PlansInside, value_applied, is_txn_of, planned, planned_with, size_in};

use crate::answers::{CallFault, refused};
use crate::laws::data_are_asked_inside;
use crate::moving::{Moved, moves};
use pf_base::{Call, Names, NoMemory};
use pf_tree::{Change, Changes, Tree, Txn};
use pf_volume::Volume;
use std::alloc::Global;

/// A call that has not ended, with its number.
#[derive(Debug, Drop)]
pub struct Pending {
    pub number: u32,
    pub call: Call<Names>,
}

/// What is planned for a call.
#[derive(Drop)]
pub enum Planned {
    /// It is refused.
    Refuses(CallFault),
    /// This transaction is to be decided.
    Proposes(Txn),
    /// It changes no metadata, or they stand. It goes on to its data, or ends.
    Goes(Moved),
}

/// The size of a call's file; 0 where there is none.
pub fn size_in(alloc: Global, tree: &Tree, call: &Call<Names>) -> u32
    ensures { result ≡ size_in tree.now.tables call.now }
{
    match call {
        Call::Write { path, .. } => size_at(tree, path),
        Call::Read { path, .. } => size_at(tree, path),
        Call::Truncate { path, .. } => size_at(tree, path),
        _ => size_at(tree, &Names::new(Vec::new(alloc))),
    }
}

/// The size of the file at a path; 0 where there is none.
fn size_at(tree: &Tree, path: &Names) -> u32
    ensures { result ≡ size_at (node_at tree.now.tables path.now) }
{
    tree.size_at(path).unwrap_or(0)
}

/// Plans a call on the tables of a tree whose file data begin at its first block. On whatever tables, what is asked lies in the volume. The
/// one error is `NoMemory` (1).
pub fn plan(
    alloc: Global,
    mount: u8,
    volume: &Volume,
    tree: &Tree,
    pending: &Pending,
) -> Result<Planned, NoMemory>
    requires { IsTreeOf volume.now tree.now.tables }
    ensures planned { IfOk result (λ p. p ≡ planned mount volume.now (data_of tree.now.first tree.now.tables) tree.now.tables pending.now) }
    ensures inside { IfOk result (PlansInside volume.now) }
{
    match tree.plan_call(alloc, &pending.call) {
        Ok(changes) => plan_with(alloc, mount, volume, tree, pending, changes),
        Err(fault) => Ok(Planned::Refuses(refused(fault)?)),
    }
}

/// What follows of the changes of a call that is not refused.
fn plan_with(
    alloc: Global,
    mount: u8,
    volume: &Volume,
    tree: &Tree,
    pending: &Pending,
    changes: Vec<Change>,
) -> Result<Planned, NoMemory>
    requires { IsTreeOf volume.now tree.now.tables }
    ensures planned { IfOk result (λ p. p ≡ planned_with mount volume.now tree.now.tables pending.now changes.items) }
    ensures inside { IfOk result (PlansInside volume.now) }
{
    data_are_asked_inside();
    volume.laws();
    if changes.is_empty() {
        let size = size_in(alloc, tree, &pending.call);
        let step = moves(alloc, volume, tree, size, &pending.call)?;
        return Ok(Planned::Goes(step));
    }
    Ok(Planned::Proposes(Txn {
        mount,
        number: pending.number,
        changes: Changes::new(changes),
    }))
}

/// Whether a transaction is that of this call of a mount.
pub fn is_of(mount: u8, number: u32, txn: &Option<Txn>) -> bool
    ensures { result ≡ is_txn_of mount number txn.now }
{
    match txn {
        Some(txn) => txn.mount == mount && txn.number == number,
        None => false,
    }
}

/// A tree with the changes of a transaction, if there is one. The one error is `NoMemory` (1).
pub(crate) fn applied_in(alloc: Global, mut tree: Tree, txn: &Option<Txn>) -> Result<Tree, NoMemory>
    ensures { IfOk result (λ after. after ≡ record tree { tables = value_applied tree.tables txn.now }) }
{
    if let Some(txn) = txn {
        tree.apply(alloc, txn)?;
    }
    Ok(tree)
}
