//! What is handed out at an anchor.
ghost use Rattle.std.specs.Prelude.{◌≡◌, ◌<◌, IfOk};
ghost use Rattle.pf_mount_errands.specs.Positions.{anchors_of, journal_of};
ghost use Rattle.pf_mount.specs.Mounts.{anchor_hands, ballots_on, looks_on, pauses_on, works_on};
ghost use Rattle.pf_mount.specs.Standing.{AsksWithin, IsStand, IsWorkAt};

use crate::MountWork;
use crate::stand::{Handed, Stand};
use pf_base::NoMemory;
use pf_mount_errands::{Errand, reads_first, reads_half, reads_super, writes_own, writes_super};
use pf_paxos::{AnchorNext, Stage};
use std::alloc::Global;

/// What is to be asked at an anchor now, if nothing is pending there and there is something to do. The one error is `NoMemory` (1).
pub(crate) fn hands(
    alloc: Global,
    stand: Stand,
    work: &MountWork,
    anchor: u8,
) -> Result<Handed, NoMemory>
    requires stand { IsStand stand }
    requires work { IsWorkAt (journal_of stand.position).positions stand.upto work.now }
    requires anchor { anchor < anchors_of stand.position }
    ensures handed { IfOk result (λ handed. handed ≡ anchor_hands stand work.now anchor) }
    ensures inside { IfOk result (λ handed. AsksWithin stand.volume handed.ask) }
{
    if !stand.errands.is_free(&stand.position, anchor) {
        return Ok(Handed::nothing(stand));
    }
    works_on(alloc, stand, work, anchor)
}

/// The next ask for this work at an anchor at which nothing is pending.
fn works_on(alloc: Global, stand: Stand, work: &MountWork, anchor: u8) -> Result<Handed, NoMemory>
    requires stand { IsStand stand }
    requires work { IsWorkAt (journal_of stand.position).positions stand.upto work.now }
    requires anchor { anchor < anchors_of stand.position }
    ensures handed { IfOk result (λ handed. handed ≡ works_on stand work.now anchor) }
    ensures inside { IfOk result (λ handed. AsksWithin stand.volume handed.ask) }
{
    match work {
        MountWork::ReadsSuper if anchor == 0 => {
            let ask = reads_super(&stand.volume);
            Ok(Handed::new(stand, anchor, Errand::OfSuper, ask))
        }
        MountWork::WritesSuper if anchor == 0 => {
            let ask = writes_super(alloc, &stand.volume)?;
            Ok(Handed::new(stand, anchor, Errand::FillsSuper, ask))
        }
        MountWork::Syncs(looks) => Ok(looks_on(stand, anchor, looks.at(anchor).stage)),
        MountWork::Ballots { .. } => ballots_on(alloc, stand, anchor),
        MountWork::Pauses { .. } => Ok(pauses_on(stand, anchor)),
        _ => Ok(Handed::nothing(stand)),
    }
}

/// The next half that a sync reads at an anchor.
fn looks_on(stand: Stand, anchor: u8, stage: Stage) -> Handed
    requires stand { IsStand stand }
    requires upto { stand.upto < (journal_of stand.position).positions }
    requires anchor { anchor < anchors_of stand.position }
    ensures handed { result ≡ looks_on stand anchor stage }
    ensures inside { AsksWithin stand.volume result.ask }
{
    let half = match stage {
        Stage::ReadsLow => 0,
        Stage::ReadsHigh => 1,
        _ => return Handed::nothing(stand),
    };
    let ask = reads_half(
        stand.position.layout(),
        &stand.volume,
        anchor,
        stand.upto,
        half,
    );
    Handed::new(stand, anchor, Errand::OfSync, ask)
}

/// The next ask of a ballot at an anchor.
fn ballots_on(alloc: Global, stand: Stand, anchor: u8) -> Result<Handed, NoMemory>
    requires stand { IsStand stand }
    requires upto { stand.upto < (journal_of stand.position).positions }
    requires anchor { anchor < anchors_of stand.position }
    ensures handed { IfOk result (λ handed. handed ≡ ballots_on stand anchor) }
    ensures inside { IfOk result (λ handed. AsksWithin stand.volume handed.ask) }
{
    let mut position = stand.position;
    let next = position.next(anchor);
    let ask = match next {
        AnchorNext::Write(block) => Some(writes_own(
            alloc,
            stand.position.layout(),
            &stand.volume,
            anchor,
            stand.upto,
            stand.mount,
            &block,
        )?),
        AnchorNext::Read(half) => Some(reads_half(
            stand.position.layout(),
            &stand.volume,
            anchor,
            stand.upto,
            half,
        )),
        AnchorNext::Idle => None,
    };
    Ok(Handed {
        stand: stand.at(position),
        ask,
    })
}

/// The next read of a pause, on the least anchor at which nothing is pending.
fn pauses_on(stand: Stand, anchor: u8) -> Handed
    requires stand { IsStand stand }
    requires upto { stand.upto < (journal_of stand.position).positions }
    requires anchor { anchor < anchors_of stand.position }
    ensures handed { result ≡ pauses_on stand anchor }
    ensures inside { AsksWithin stand.volume result.ask }
{
    if stand.errands.is_waiting() || anchor != stand.errands.least_free(&stand.position) {
        return Handed::nothing(stand);
    }
    let ask = reads_first(stand.position.layout(), &stand.volume, anchor, stand.upto);
    Handed::new(stand, anchor, Errand::OfPause, ask)
}
