//! Where a mount stands, what a step makes of it, and what is handed out.
ghost use Rattle.std.specs.Prelude.{◌≡◌, ◌<◌, IsTrue};
ghost use Rattle.pf_paxos.specs.Standing.{AreBlocks, IsInput};
ghost use Rattle.pf_mount.specs.declared.work.MountNext.TheVariants.{Done};
ghost use Rattle.pf_mount.specs.declared.work.MountWork.TheVariants.{Rests};

use crate::{MountNext, MountTask, MountWork};
use pf_base::{Ask, Value};
use pf_file_calls::CallAnswer;
use pf_mount_errands::{Errand, Errands, Position};
use pf_paxos::Block;
use pf_volume::Volume;

/// Where a mount stands as a step begins.
#[derive(Clone, Copy)]
pub(crate) struct Stand {
    pub(crate) mount: u8,
    pub(crate) volume: Volume,
    /// So many transactions are applied.
    pub(crate) upto: u32,
    pub(crate) position: Position,
    pub(crate) errands: Errands,
}

/// What a step makes of a mount. It is worked out whole, and then the mount takes it over.
#[derive(Drop)]
pub(crate) struct MountStep {
    pub(crate) stand: Stand,
    /// What the mount is at work on from now on; `None` where that stays.
    pub(crate) task: Option<MountTask>,
    /// The call ends.
    pub(crate) ends: bool,
    pub(crate) next: Option<MountNext>,
}

/// What is handed out at an anchor, and where the mount stands then.
#[derive(Drop)]
pub(crate) struct Handed {
    pub(crate) stand: Stand,
    pub(crate) ask: Option<Ask>,
}

impl Stand {
    ghost use Rattle.pf_mount.specs.Mounts.{position_advanced};
    ghost use Rattle.pf_mount_errands.specs.Errands.{all_late, with_errand};
    ghost use Rattle.pf_mount_errands.specs.Positions.{can_start, having_seen, journal_of, starting_ballot};

    /// These blocks of the position were read.
    pub(crate) fn seeing(&self, blocks: &[Block]) -> Stand
        requires { AreBlocks blocks.now }
        ensures { result ≡ record self.now { position = having_seen self.now.position blocks.now } }
    {
        let mut position = self.position;
        position.see(blocks);
        self.at(position)
    }

    /// The least ballot above all that was seen begins.
    pub(crate) fn started(&self, input: Option<Value>) -> Stand
        requires left { IsTrue (can_start self.now.position) }
        requires input { IsInput input }
        ensures { result ≡ record self.now { position = starting_ballot self.now.position input } }
    {
        let mut position = self.position;
        position.start(input);
        self.at(position)
    }

    /// With its position so.
    pub(crate) fn at(&self, position: Position) -> Stand
        ensures { result ≡ record self.now { position = position } }
    {
        Stand { position, ..*self }
    }

    /// With this errand at an anchor.
    pub(crate) fn with(&self, anchor: u8, errand: Errand) -> Stand
        ensures { result ≡ record self.now { errands = with_errand self.now.errands anchor errand } }
    {
        let errands = self.errands.with(anchor, errand);
        Stand { errands, ..*self }
    }

    /// As a sync begins: what is pending is of earlier work from then on.
    pub(crate) fn late(&self) -> Stand
        ensures { result ≡ record self.now { errands = all_late self.now.errands } }
    {
        let errands = self.errands.late();
        Stand { errands, ..*self }
    }

    /// The first of the next position.
    pub(crate) fn advanced(&self) -> Stand
        requires mount { self.now.mount < 16 }
        requires upto { self.now.upto < (journal_of self.now.position).positions }
        ensures { result ≡ position_advanced self.now }
    {
        Stand {
            mount: self.mount,
            volume: self.volume,
            upto: self.upto + 1,
            position: Position::new(self.position.layout(), self.mount),
            errands: self.errands.left(&self.position),
        }
    }
}

impl MountStep {
    ghost use Rattle.std.specs.Prelude.{None, Some, false};
    ghost use Rattle.pf_mount.specs.Mounts.{done, fails, work_stays, turns_to};

    /// What the mount is at work on stays.
    pub(crate) fn stays(stand: Stand) -> MountStep
        ensures { result ≡ work_stays stand }
    {
        MountStep::goes_on(stand, None)
    }

    /// The mount is at work on this from now on, and nothing ends.
    pub(crate) fn turns_to(stand: Stand, work: MountWork) -> MountStep
        ensures { result ≡ turns_to stand work }
    {
        MountStep::goes_on(stand, Some(MountTask { work, ask: None }))
    }

    /// Nothing ends. With a task, the mount is at work on that from now on.
    pub(crate) fn goes_on(stand: Stand, task: Option<MountTask>) -> MountStep
        ensures { result ≡ record { stand = stand; task = task; ends = false; next = None } }
    {
        MountStep {
            stand,
            task,
            ends: false,
            next: None,
        }
    }

    /// The call ends with this answer.
    pub(crate) fn ends(stand: Stand, answer: CallAnswer) -> MountStep
        ensures { result ≡ done stand answer }
    {
        MountStep::rests(stand, true, MountNext::Done(answer))
    }

    /// The superblock is another's: the mount never is ready.
    pub(crate) fn fails(stand: Stand) -> MountStep
        ensures { result ≡ fails stand }
    {
        MountStep {
            stand,
            task: Some(MountTask {
                work: MountWork::Fails,
                ask: None,
            }),
            ends: false,
            next: Some(MountNext::Failed),
        }
    }

    /// The mount rests from now on, as this ends.
    pub(crate) fn rests(stand: Stand, ends: bool, next: MountNext) -> MountStep
        ensures { result ≡ record { stand = stand; task = Some (record { work = Rests; ask = None }); ends = ends; next = Some next } }
    {
        MountStep {
            stand,
            task: Some(MountTask {
                work: MountWork::Rests,
                ask: None,
            }),
            ends,
            next: Some(next),
        }
    }
}

impl Handed {
    ghost use Rattle.pf_mount.specs.Mounts.{hands_errand, hands_nothing};

    /// Nothing.
    pub(crate) fn nothing(stand: Stand) -> Handed
        ensures { result ≡ hands_nothing stand }
    {
        Handed { stand, ask: None }
    }

    /// This ask, for this errand.
    pub(crate) fn new(stand: Stand, anchor: u8, errand: Errand, ask: Ask) -> Handed
        ensures { result ≡ hands_errand stand anchor errand ask }
    {
        Handed {
            stand: stand.with(anchor, errand),
            ask: Some(ask),
        }
    }
}
