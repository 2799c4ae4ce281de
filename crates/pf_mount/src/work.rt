//! What a mount is at work on, and what ends by a step.

use pf_base::{Ask, Value};
use pf_file_calls::{CallAnswer, DataMoving};
use pf_mount_errands::Looks;

/// What a mount is at work on.
#[derive(Drop)]
pub enum MountWork {
    /// It is ready, and no call is pending.
    Rests,
    /// Sector 0 is no superblock of the volume: it never is ready.
    Fails,
    /// The superblock is read.
    ReadsSuper,
    /// The superblock is written.
    WritesSuper,
    /// A sync reads both halves of its position on the anchors.
    Syncs(Looks),
    /// A ballot, with an own input where the call has a change to propose.
    Ballots { input: Option<Value> },
    /// A pause before the next ballot, with so many reads after the next or pending one.
    Pauses { input: Option<Value>, left: u32 },
    /// File data of the call.
    Moves(DataMoving),
}

/// The work of a mount, and its ask for file data until that is handed out.
#[derive(Drop)]
pub struct MountTask {
    pub work: MountWork,
    pub ask: Option<Ask>,
}

/// What ends by a step of a mount.
#[derive(Drop)]
pub enum MountNext {
    /// The mount is ready.
    Ready,
    /// The superblock is another's: the mount never is ready.
    Failed,
    /// The call ends with this answer.
    Done(CallAnswer),
}
