//! A group as its last step began that may have touched disks.
ghost use Rattle.std.specs.Prelude.{◌≡◌, if◌then◌else◌, IfOk, OnErr, is_some, not};
ghost use Rattle.pf_protocol.specs.Servers.{Setup};
ghost use Rattle.pf_group_network.specs.Going.{IsReached, is_quiet_event};
ghost use Rattle.pf_group_network.specs.Pasts.{GroupPast as PastIs};
ghost use Rattle.pf_disk_store.specs.Model.{kept_model};
ghost use Rattle.pf_group.specs.Beginning.{IsBegun, IsBegunIf};
ghost use Rattle.pf_group.specs.Events.{MayWant};
ghost use Rattle.pf_group.specs.Halves.{told_in};
ghost use Rattle.pf_group.specs.Reacting.{RestartIsTold, MayReact, Reacts, ReactsSomehow, own_of};

use crate::GroupEvent;
use crate::happenings::Happenings;
use crate::past::Past;
use crate::react::react;
use pf_base::NoMemory;
use pf_disk::Disk;
use pf_disk_store::Kept;
use pf_group_network::{Network, is_quiet};
use pf_protocol::Happening;
use std::alloc::Global;
use std::snapshot::Snapshot;

/// A group as its last step began that may have touched disks: its servers, and what had happened by then. No value of it has bytes.
#[derive(Drop)]
pub struct Began<D: Disk> {
    pub network: Snapshot<Network<Kept<D>>>,
    pub happenings: Snapshot<Happenings>,
}

impl<D: Disk> Began<D> {
    /// Such a step begins now.
    pub fn now(network: &Network<Kept<D>>, past: &Past) -> Began<D>
        ensures { IsBegun network.now past.now.happenings result }
    {
        Began {
            network: Snapshot::of(network),
            happenings: Snapshot::of(&past.happenings),
        }
    }
}

/// The later beginning, where disks may have been touched since.
fn keep_if<D: Disk + Drop>(may_touch: bool, began: &mut Began<D>, now: Began<D>)
    ensures { began.new ≡ (if may_touch then now else began.old) }
{
    if may_touch {
        *began = now;
    }
}

/// Carries out an event. The last step that may have touched disks begins with it, unless it is quiet, or there was no memory for it
/// and no disk was touched.
pub fn begin<D: Disk + Drop>(
    network: &mut Network<Kept<D>>,
    began: &mut Began<D>,
    past: &Past,
    alloc: Global,
    event: GroupEvent,
) -> Result<Happening, NoMemory>
    requires { MayReact (kept_model D.seen D.may_leave D.faults D.moment D.left_since D.tells_moments) network.old event }
    ensures step { (setup : Setup) (came : PastIs) → IsReached (kept_model D.seen D.may_leave D.faults D.moment D.left_since D.tells_moments) setup came
        network.old → RestartIsTold (told_in D.seen) setup came.group network.old event
        → Reacts (kept_model D.seen D.may_leave D.faults D.moment D.left_since D.tells_moments) setup came.group event network.old network.new result }
    ensures somehow { (setup : Setup) (came : PastIs) → IsReached (kept_model D.seen D.may_leave D.faults D.moment D.left_since D.tells_moments) setup came
        network.old
        → ReactsSomehow (kept_model D.seen D.may_leave D.faults D.moment D.left_since D.tells_moments) setup came.group event network.old network.new result }
    ensures sure { OnErr result (MayWant event) }
    ensures began { IfOk result (λ r. IsBegunIf (not (is_quiet_event r.event)) network.old past.now.happenings began.old began.new) }
    ensures tried { OnErr result (IsBegunIf (is_some (own_of event)) network.old past.now.happenings began.old began.new) }
{
    let now = Began::now(network, past);
    let may_touch = event.may_touch();
    match react(network, alloc, event) {
        Ok(happening) => {
            keep_if(!is_quiet(&happening.event), began, now);
            Ok(happening)
        }
        Err(fault) => {
            keep_if(may_touch, began, now);
            Err(fault)
        }
    }
}
