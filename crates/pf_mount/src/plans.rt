//! The steps of a mount that plan its call, and its syncs.
ghost use Rattle.std.specs.Prelude.{◌≡◌, IfOk};
ghost use Rattle.pf_txn.specs.Spelling.{CanSpell, IsShortCall};
ghost use Rattle.pf_mount.specs.Filing.{CanPropose, IsShortFor};
ghost use Rattle.pf_mount.specs.Mounts.{data_moved, plans, plans_as, proposes, synced, syncs, syncs_on};
ghost use Rattle.pf_mount.specs.Standing.{IsHeldFor};

use crate::ballots::ballots;
use crate::stand::{MountStep, Stand};
use crate::{MountNext, MountTask, MountWork};
use pf_base::NoMemory;
use pf_file_calls::{
    CallAnswer, CallFault, Moved, Pending, Planned, plan, planned_calls_follow_the_tree,
    spell_input,
};
use pf_mount_errands::Looks;
use pf_tree::{Tree, Txn};
use std::alloc::Global;

/// A step of file data.
pub(crate) fn moved(stand: Stand, step: Moved) -> MountStep
    ensures { result ≡ data_moved stand step }
{
    match step {
        Moved::Asks(ask, moving) => {
            let task = MountTask {
                work: MountWork::Moves(moving),
                ask: Some(ask),
            };
            MountStep::goes_on(stand, Some(task))
        }
        Moved::Ends(answer) => MountStep::ends(stand, answer),
    }
}

/// A change is proposed at the position, unless there is none any more.
fn proposes(stand: Stand, txn: &Txn) -> MountStep
    requires { CanSpell txn.now }
    ensures { result ≡ proposes stand txn.now }
{
    if stand.upto == stand.position.layout().positions() {
        return MountStep::ends(stand, CallAnswer::Refused(CallFault::JournalFull));
    }
    let Some(input) = spell_input(txn) else {
        unreachable!();
    };
    ballots(stand, Some(input))
}

/// What follows of a plan.
fn plans_as(stand: Stand, planned: Planned) -> MountStep
    requires { CanPropose planned }
    ensures { result ≡ plans_as stand planned }
{
    match planned {
        Planned::Refuses(fault) => MountStep::ends(stand, CallAnswer::Refused(fault)),
        Planned::Proposes(txn) => proposes(stand, &txn),
        Planned::Goes(step) => moved(stand, step),
    }
}

/// Plans a call.
pub(crate) fn plans(
    alloc: Global,
    stand: Stand,
    tree: &Tree,
    pending: &Pending,
) -> Result<MountStep, NoMemory>
    requires tree { IsHeldFor stand.volume tree.now }
    requires call { IsShortCall pending.now.call }
    ensures { IfOk result (λ step. step ≡ plans stand tree.now pending.now) }
{
    planned_calls_follow_the_tree();
    tree.laws();
    let planned = plan(alloc, stand.mount, &stand.volume, tree, pending)?;
    Ok(plans_as(stand, planned))
}

/// The mount is ready, or its call is planned.
pub(crate) fn synced(
    alloc: Global,
    stand: Stand,
    tree: &Tree,
    pending: &Option<Pending>,
) -> Result<MountStep, NoMemory>
    requires tree { IsHeldFor stand.volume tree.now }
    requires call { IsShortFor pending.now }
    ensures { IfOk result (λ step. step ≡ synced stand tree.now pending.now) }
{
    match pending {
        Some(pending) => plans(alloc, stand, tree, pending),
        None => Ok(MountStep::rests(stand, false, MountNext::Ready)),
    }
}

/// Both halves of the position are read on the anchors; past the last position there is nothing to read.
pub(crate) fn syncs(
    alloc: Global,
    stand: Stand,
    tree: &Tree,
    pending: &Option<Pending>,
) -> Result<MountStep, NoMemory>
    requires tree { IsHeldFor stand.volume tree.now }
    requires call { IsShortFor pending.now }
    ensures { IfOk result (λ step. step ≡ syncs stand tree.now pending.now) }
{
    if stand.upto == stand.position.layout().positions() {
        return synced(alloc, stand, tree, pending);
    }
    Ok(MountStep::turns_to(stand.late(), MountWork::Syncs(Looks::new())))
}

/// The sync goes on. Once as many anchors are read as it needs it ends where none of their blocks has a nonzero bal; else the position is decided by
/// ballots without an own input.
pub(crate) fn syncs_on(
    alloc: Global,
    stand: Stand,
    tree: &Tree,
    pending: &Option<Pending>,
    looks: Looks,
) -> Result<MountStep, NoMemory>
    requires tree { IsHeldFor stand.volume tree.now }
    requires call { IsShortFor pending.now }
    ensures { IfOk result (λ step. step ≡ syncs_on stand tree.now pending.now looks) }
{
    if !looks.are_over(stand.position.layout().quorum()) {
        return Ok(MountStep::turns_to(stand, MountWork::Syncs(looks)));
    }
    if looks.have_found() {
        return Ok(ballots(stand, None));
    }
    synced(alloc, stand, tree, pending)
}
