//! The steps of a mount that begin a ballot or a pause.
ghost use Rattle.std.specs.Prelude.{◌≡◌, ◌<◌, IsTrue};
ghost use Rattle.pf_paxos.specs.Standing.{IsInput};
ghost use Rattle.pf_mount.specs.Mounts.{ballot_aborted, ballots, paused, pauses};
ghost use Rattle.pf_mount_errands.specs.Positions.{can_start};

use crate::MountWork;
use crate::stand::{MountStep, Stand};
use pf_base::Value;

/// A pause of so many reads and one.
fn pauses(stand: Stand, input: Option<Value>, left: u32) -> MountStep
    ensures { result ≡ pauses stand input left }
{
    MountStep::turns_to(stand, MountWork::Pauses { input, left })
}

/// The pause after an aborted ballot.
pub(crate) fn aborted(stand: Stand, input: Option<Value>) -> MountStep
    requires { stand.mount < 16 }
    ensures { result ≡ ballot_aborted stand input }
{
    let mut position = stand.position;
    position.abort();
    let left = position.rest(stand.mount);
    pauses(stand.at(position), input, left)
}

/// The least ballot above all that was seen begins. Where none is left, one sector is read, and then it is tried again.
pub(crate) fn ballots(stand: Stand, input: Option<Value>) -> MountStep
    requires { IsInput input }
    ensures { result ≡ ballots stand input }
{
    if !stand.position.can_start() {
        return pauses(stand, input, 0);
    }
    starts(stand, &input)
}

/// The least ballot above all that was seen begins.
fn starts(stand: Stand, input: &Option<Value>) -> MountStep
    requires input { IsInput input.now }
    requires left { IsTrue (can_start stand.position) }
    ensures { result ≡ ballots stand input.now }
{
    MountStep::turns_to(stand.started(*input), MountWork::Ballots { input: *input })
}

/// A sector of a pause was read; nobody looks at it.
pub(crate) fn paused(stand: Stand, input: Option<Value>, left: u32) -> MountStep
    requires { IsInput input }
    ensures { result ≡ paused stand input left }
{
    if left == 0 {
        return ballots(stand, input);
    }
    pauses(stand, input, left - 1)
}
