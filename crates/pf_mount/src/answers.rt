//! The steps of a mount whose ask at a port was answered.
ghost use Rattle.std.specs.Prelude.{◌≡◌, ◌<◌, ◌≤◌, IfOk, OnErr};
ghost use Rattle.pf_paxos.specs.Standing.{IsInput};
ghost use Rattle.pf_paxos.specs.Parts.{part_at};
ghost use Rattle.pf_txn.specs.Reading.{txn_in};
ghost use Rattle.pf_txn.specs.Spelling.{IsShortCall};
ghost use Rattle.pf_mount.specs.Filing.{IsShortFor};
ghost use Rattle.pf_mount_errands.specs.Errands.{errand_at};
ghost use Rattle.pf_mount_errands.specs.Positions.{anchors_of, journal_of};
ghost use Rattle.pf_file_calls.specs.Blocks.{bytes_of};
ghost use Rattle.pf_mount.specs.Mounts.{ballot_answered, balloted, data_answered, value_decided, look_answered, pause_answered, port_answered, proceeds, proceeds_with, super_answered, super_filled, super_read};
ghost use Rattle.pf_mount.specs.Mounts.{tables_held};
ghost use Rattle.pf_mount.specs.Standing.{AnswersBallot, AnswersData, AnswersErrand, AreFilesFor, HasSectors, IsHeldFor, IsStand, IsWorkAt};

use crate::MountWork;
use crate::ballots::{aborted, paused};
use crate::plans::{moved, plans, synced, syncs, syncs_on};
use crate::stand::{MountStep, Stand};
use pf_base::{NoMemory, Reply, Sector, Value};
use pf_file_calls::{FileWork, Pending, is_of, moves, moves_on, size_in};
use pf_layout::read_super;
use pf_mount_errands::{Errand, blocks_in};
use pf_paxos::{AnchorAsk, BallotStep};
use pf_tree::{Tree, Txn};
use std::alloc::Global;

/// What comes of an answered read of a ballot.
fn balloted(
    alloc: Global,
    stand: Stand,
    files: &mut FileWork,
    input: Option<Value>,
    step: BallotStep,
) -> Result<MountStep, NoMemory>
    requires stand { IsStand stand }
    requires upto { stand.upto < (journal_of stand.position).positions }
    requires files { AreFilesFor stand files.old }
    requires input { IsInput input }
    ensures kept { files.new ≡ record files.old { tables = files.new.tables } }
    ensures makes { IfOk result (λ made. record { step = made; tables = files.new.tables }
        ≡ balloted stand (tables_held files.old) files.old.pending input step) }
    ensures err { OnErr result (files.new ≡ files.old) }
{
    match step {
        BallotStep::Go => Ok(MountStep::stays(stand)),
        BallotStep::Abort(_) => Ok(aborted(stand, input)),
        BallotStep::NoValue => synced(alloc, stand, files.tree(), files.pending()),
        BallotStep::Decided(value) => decided(alloc, stand, files, input, &value),
    }
}

/// The value of the position is decided: its changes are taken over with the step.
fn decided(
    alloc: Global,
    stand: Stand,
    files: &mut FileWork,
    input: Option<Value>,
    value: &Value,
) -> Result<MountStep, NoMemory>
    requires stand { IsStand stand }
    requires upto { stand.upto < (journal_of stand.position).positions }
    requires files { AreFilesFor stand files.old }
    ensures kept { files.new ≡ record files.old { tables = files.new.tables } }
    ensures makes { IfOk result (λ step. record { step = step; tables = files.new.tables }
        ≡ value_decided stand (tables_held files.old) files.old.pending input (txn_in value.now)) }
    ensures err { OnErr result (files.new ≡ files.old) }
{
    let after = files.applied(alloc, value)?;
    let step = proceeds(
        alloc,
        stand.advanced(),
        files.tree(),
        &after.tree,
        files.pending(),
        &after.txn,
        input,
    )?;
    files.take_over(after);
    Ok(step)
}

/// The step after a decision. A sync goes on at the next position.
fn proceeds(
    alloc: Global,
    stand: Stand,
    before: &Tree,
    after: &Tree,
    pending: &Option<Pending>,
    txn: &Option<Txn>,
    input: Option<Value>,
) -> Result<MountStep, NoMemory>
    requires tree { IsHeldFor stand.volume after.now }
    requires call { IsShortFor pending.now }
    ensures { IfOk result (λ step. step ≡ proceeds stand before.now after.now txn.now input pending.now) }
{
    match (input, pending) {
        (Some(_), Some(pending)) => proceeds_with(alloc, stand, before, after, pending, txn),
        _ => syncs(alloc, stand, after, pending),
    }
}

/// The step of a call after a decision: it goes on to its data where the transaction is its own, and else is planned again.
fn proceeds_with(
    alloc: Global,
    stand: Stand,
    before: &Tree,
    after: &Tree,
    pending: &Pending,
    txn: &Option<Txn>,
) -> Result<MountStep, NoMemory>
    requires tree { IsHeldFor stand.volume after.now }
    requires call { IsShortCall pending.now.call }
    ensures { IfOk result (λ step. step ≡ proceeds_with stand before.now after.now txn.now pending.now) }
{
    if is_of(stand.mount, pending.number, txn) {
        let size = size_in(alloc, before, &pending.call);
        let step = moves(alloc, &stand.volume, after, size, &pending.call)?;
        return Ok(moved(stand, step));
    }
    plans(alloc, stand, after, pending)
}

/// An ask of a ballot was answered. While the mount is at other work no ballot runs, and the answer frees the anchor alone.
fn ballot_answered(
    alloc: Global,
    stand: Stand,
    files: &mut FileWork,
    work: &MountWork,
    anchor: u8,
    reply: &Reply,
) -> Result<MountStep, NoMemory>
    requires stand { IsStand stand }
    requires files { AreFilesFor stand files.old }
    requires work { IsWorkAt (journal_of stand.position).positions stand.upto work.now }
    requires anchor { anchor < anchors_of stand.position }
    requires answers { AnswersBallot (part_at stand.position.ballot.parts anchor).asked reply.now }
    ensures kept { files.new ≡ record files.old { tables = files.new.tables } }
    ensures makes { IfOk result (λ step. record { step = step; tables = files.new.tables }
        ≡ ballot_answered stand (tables_held files.old) files.old.pending work.now anchor reply.now) }
    ensures err { OnErr result (files.new ≡ files.old) }
{
    let mut position = stand.position;
    match reply {
        Reply::Written => {
            position.on_written(anchor);
            Ok(MountStep::stays(stand.at(position)))
        }
        Reply::Bytes(sectors) => {
            let AnchorAsk::Half(half) = position.asked(anchor) else {
                unreachable!();
            };
            let blocks = blocks_in(alloc, sectors.as_slice())?;
            let step = position.on_read(anchor, half, &blocks);
            let stand = stand.at(position);
            match work {
                MountWork::Ballots { input } => balloted(alloc, stand, files, *input, step),
                _ => Ok(MountStep::stays(stand)),
            }
        }
    }
}

/// A half was read in a sync. One of an earlier sync frees the anchor alone.
fn look_answered(
    alloc: Global,
    stand: Stand,
    tree: &Tree,
    pending: &Option<Pending>,
    work: &MountWork,
    anchor: u8,
    reply: &Reply,
) -> Result<MountStep, NoMemory>
    requires tree { IsHeldFor stand.volume tree.now }
    requires call { IsShortFor pending.now }
    ensures { IfOk result (λ step. step ≡ look_answered stand tree.now pending.now work.now anchor reply.now) }
{
    match (work, reply) {
        (MountWork::Syncs(looks), Reply::Bytes(sectors)) => {
            let blocks = blocks_in(alloc, sectors.as_slice())?;
            let looks = looks.read(anchor, &blocks);
            syncs_on(alloc, stand.seeing(&blocks), tree, pending, looks)
        }
        _ => Ok(MountStep::stays(stand)),
    }
}

/// Sector 0 was read.
fn super_read(
    alloc: Global,
    stand: Stand,
    tree: &Tree,
    pending: &Option<Pending>,
    sector: &Sector,
) -> Result<MountStep, NoMemory>
    requires tree { IsHeldFor stand.volume tree.now }
    requires call { IsShortFor pending.now }
    ensures { IfOk result (λ step. step ≡ super_read stand tree.now pending.now sector.now) }
{
    stand.volume.laws();
    match read_super(sector, stand.volume.chunks(), stand.volume.sectors()) {
        Ok(true) => syncs(alloc, stand, tree, pending),
        Ok(false) => Ok(MountStep::turns_to(stand, MountWork::WritesSuper)),
        Err(_) => Ok(MountStep::fails(stand)),
    }
}

/// The superblock was written.
fn super_filled(
    alloc: Global,
    stand: Stand,
    tree: &Tree,
    pending: &Option<Pending>,
    work: &MountWork,
) -> Result<MountStep, NoMemory>
    requires tree { IsHeldFor stand.volume tree.now }
    requires call { IsShortFor pending.now }
    ensures { IfOk result (λ step. step ≡ super_filled stand tree.now pending.now work.now) }
{
    match work {
        MountWork::WritesSuper => syncs(alloc, stand, tree, pending),
        _ => Ok(MountStep::stays(stand)),
    }
}

/// The read of sector 0 was answered.
fn super_answered(
    alloc: Global,
    stand: Stand,
    tree: &Tree,
    pending: &Option<Pending>,
    work: &MountWork,
    reply: &Reply,
) -> Result<MountStep, NoMemory>
    requires tree { IsHeldFor stand.volume tree.now }
    requires call { IsShortFor pending.now }
    requires one { HasSectors 1 reply.now }
    ensures { IfOk result (λ step. step ≡ super_answered stand tree.now pending.now work.now reply.now) }
{
    match (work, reply) {
        (MountWork::ReadsSuper, Reply::Bytes(sectors)) => {
            super_read(alloc, stand, tree, pending, sectors.sector(0))
        }
        _ => Ok(MountStep::stays(stand)),
    }
}

/// A sector of a pause was read.
fn pause_answered(stand: Stand, work: &MountWork) -> MountStep
    requires { IsWorkAt (journal_of stand.position).positions stand.upto work.now }
    ensures { result ≡ pause_answered stand work.now }
{
    match work {
        MountWork::Pauses { input, left } => paused(stand, *input, *left),
        _ => MountStep::stays(stand),
    }
}

/// An ask for file data was answered.
fn data_answered(
    alloc: Global,
    stand: Stand,
    tree: &Tree,
    work: &MountWork,
    reply: &Reply,
) -> Result<MountStep, NoMemory>
    requires tree { IsHeldFor stand.volume tree.now }
    requires answers { AnswersData work.now None reply.now }
    ensures { IfOk result (λ step. step ≡ data_answered stand tree.now work.now reply.now) }
{
    match work {
        MountWork::Moves(moving) => {
            let step = moves_on(alloc, &stand.volume, tree, moving, reply)?;
            Ok(moved(stand, step))
        }
        _ => Ok(MountStep::stays(stand)),
    }
}

/// The pending ask of a port was answered: the step. Where a transaction was decided, its changes are taken over.
pub(crate) fn answered(
    alloc: Global,
    stand: Stand,
    files: &mut FileWork,
    work: &MountWork,
    port: u8,
    reply: &Reply,
) -> Result<MountStep, NoMemory>
    requires stand { IsStand stand }
    requires files { AreFilesFor stand files.old }
    requires work { IsWorkAt (journal_of stand.position).positions stand.upto work.now }
    requires port { port ≤ anchors_of stand.position }
    requires anchor { port < anchors_of stand.position → AnswersErrand (errand_at stand.errands port) (part_at stand.position.ballot.parts port).asked
        reply.now }
    requires data_port { port ≡ anchors_of stand.position → AnswersData work.now None reply.now }
    ensures kept { files.new ≡ record files.old { tables = files.new.tables } }
    ensures makes { IfOk result (λ step. record { step = step; tables = files.new.tables }
        ≡ port_answered stand (tables_held files.old) files.old.pending work.now port reply.now) }
    ensures err { OnErr result (files.new ≡ files.old) }
{
    if port == stand.position.layout().anchors() {
        return data_answered(alloc, stand, files.tree(), work, reply);
    }
    let free = stand.with(port, Errand::Free);
    match stand.errands.at(port) {
        Errand::Free => ballot_answered(alloc, stand, files, work, port, reply),
        Errand::OfSync => look_answered(
            alloc,
            free,
            files.tree(),
            files.pending(),
            work,
            port,
            reply,
        ),
        Errand::OfPause => Ok(pause_answered(free, work)),
        Errand::OfSuper => super_answered(alloc, free, files.tree(), files.pending(), work, reply),
        Errand::FillsSuper => super_filled(alloc, free, files.tree(), files.pending(), work),
        _ => Ok(MountStep::stays(free)),
    }
}
