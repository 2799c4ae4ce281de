//! A mount over a layout.
ghost use Rattle.std.specs.Prelude.{◌≡◌, ◌≢◌, ◌↔◌, ◌+◌, ◌<◌, ◌≤◌, ◌^◌, IfOk, IsErrOf, IsTrue, OnErr, OnOk, Some, false};
ghost use Rattle.std.specs.Option.{option_map};
ghost use Rattle.pf_base.specs.Asks.{chunk_of};
ghost use Rattle.pf_base.specs.CallNames.{call_name_of};
ghost use Rattle.pf_txn.specs.Spelling.{IsShortCall};
ghost use Rattle.pf_mount.specs.Starts.{IsMisspelled};
ghost use Rattle.pf_mount.specs.declared.work.MountWork.TheVariants.{Rests};
ghost use Rattle.pf_journal.specs.Layouts.{VolumeHasRoom, layout_of};
ghost use Rattle.pf_mount_errands.specs.Positions.{anchors_of, journal_of};
ghost use Rattle.pf_mount.specs.Mounts.{anchor_hands, mount_answered, first_work, hands_nothing, mount_opening, stand_of, starting, taken};
ghost use Rattle.pf_mount.specs.Nexts.{first_of_ask, having_put, is_busy, next_ask, ports_of};
ghost use Rattle.pf_mount.specs.Standing.{AnswersPort, AsksWithin, Awaits, IsMount, Starts};
ghost use Rattle.pf_volume.specs.Volumes.{IsVolume};
ghost use Rattle.pf_file_calls.specs.Moving.{IsTreeOf};

use crate::answers::answered;
use crate::hands::hands;
use crate::plans::syncs;
use crate::stand::{Handed, MountStep, Stand};
use crate::{MountNext, MountTask, MountWork, StartFault};
use pf_base::{Ask, Bytes, Call, CallName, Names, NoMemory, Reply};
use pf_file_calls::{FileWork, Pending, data_are_asked_inside};
use pf_journal::Layout;
use pf_layout::read_call;
use pf_mount_errands::{Errands, Looks, Position};
use pf_tree::Tree;
use pf_volume::Volume;
use std::alloc::Global;
use std::marker::Model;

/// One mount of a volume whose journal lies by a layout, of whose anchors it needs a quorum: its tables, how far it has read the journal,
/// its ballots there, and the call that has not ended. Its first ports are those to the anchors, and the one behind them is that for file
/// data. At each port at most one ask is pending at a time.
pub struct Mount {
    files: FileWork,
    upto: u32,
    position: Position,
    errands: Errands,
    task: MountTask,
}

/// By hand, so that what lets it go calls this, and no crate above proves anew how its parts go.
impl Drop for Mount {
    fn drop(self) {
        let Mount {
            files: _,
            upto: _,
            position: _,
            errands: _,
            task: _,
        } = self;
    }
}

impl Model for Mount {
    ghost use Rattle.pf_mount.specs.Mounts.{MountIs};
    ghost use Rattle.pf_mount.specs.Standing.{IsMount};

    ghost Value = { MountIs };

    ghost view = { λ m. record { files = m.files; upto = m.upto; position = m.position; errands = m.errands; task = m.task } };

    ghost invariant = { λ m. IsMount (record { files = m.files; upto = m.upto; position = m.position; errands = m.errands; task = m.task }) };
}

impl Mount {
    /// Mount `number` of a volume that has room for the layout. It begins with the superblock where the layout has one, and else with a
    /// sync. The one error is `NoMemory` (1).
    pub fn new(alloc: Global, layout: Layout, number: u8, volume: Volume) -> Result<Mount, NoMemory>
        requires number { number < 16 }
        requires volume { VolumeHasRoom layout volume }
        ensures { IfOk result (λ mount. mount ≡ mount_opening layout number volume) }
    {
        let files = FileWork::new(alloc, number, volume, layout.first())?;
        Ok(Mount {
            files,
            upto: 0,
            position: Position::new(layout, number),
            errands: Errands::new(),
            task: MountTask {
                work: first_work(layout),
                ask: None,
            },
        })
    }

    /// Its number, below 16.
    pub fn number(&self) -> u8
        ensures number { result ≡ self.now.files.mount }
        ensures is_mount { IsMount self.now }
    {
        self.files.mount()
    }

    /// Its tables.
    pub fn tree(&self) -> &Tree
        ensures { result.now ≡ record { first = self.now.files.first; tables = self.now.files.tables } }
    {
        self.files.tree()
    }

    /// The position at which it stands, at most that behind the last: so many transactions are applied.
    pub fn upto(&self) -> u32
        ensures upto { result ≡ self.now.upto }
        ensures most { result ≤ (journal_of self.now.position).positions }
    {
        self.upto
    }

    /// The name of the call that has not ended.
    pub fn call(&self) -> Option<CallName>
        ensures { result ≡ option_map (λ p. call_name_of p.call) self.now.files.pending }
    {
        match self.files.pending() {
            Some(pending) => Some(pending.call.name()),
            None => None,
        }
    }

    /// How many ports it has.
    pub fn ports(&self) -> u8
        ensures ports { result ≡ ports_of self.now }
        ensures most { result ≤ 4 }
    {
        self.position.layout().anchors() + 1
    }

    /// Whether it is not ready, or a call of it has not ended.
    pub fn is_pending(&self) -> bool
        ensures { IsTrue result ↔ (self.now.task.work ≢ Rests) }
    {
        !matches!(self.task.work, MountWork::Rests)
    }

    /// What is to be asked at this port now, where `busy` has the chunk of each ask that is pending at its ports; `None` exactly where an ask
    /// is pending there, there is nothing to do, an ask for the same chunk is pending, or file data would be asked for before their first
    /// block. It lies in the volume, whatever was decided. After `NoMemory` (1), the one error, the mount is as it was.
    pub fn ask(
        &mut self,
        alloc: Global,
        port: u8,
        busy: &[Option<u8>],
    ) -> Result<Option<Ask>, NoMemory>
        requires { port < ports_of self.old }
        ensures ok { IfOk result (λ ask. ask ≡ next_ask self.old busy.now port) }
        ensures asked { IfOk result (λ ask. self.new ≡ having_put self.old port ask) }
        ensures inside { IfOk result (AsksWithin self.old.files.volume) }
        ensures awaits { IfOk result (Awaits self.new port) }
        ensures err { OnErr result (self.new ≡ self.old) }
    {
        if port == self.position.layout().anchors() {
            return Ok(self.data_ask(busy));
        }
        if !self.may_ask(port) {
            return Ok(None);
        }
        self.anchor_ask(alloc, port, busy)
    }

    /// The pending ask of this port was answered: what ends by it. After `NoMemory` (1), the one error, the mount is as it was.
    pub fn on_answer(
        &mut self,
        alloc: Global,
        port: u8,
        reply: Reply,
    ) -> Result<Option<MountNext>, NoMemory>
        requires { AnswersPort self.old port reply }
        ensures ok { IfOk result (λ next. record { mount = self.new; next = next } ≡ mount_answered self.old port reply) }
        ensures err { OnErr result (self.new ≡ self.old) }
    {
        data_are_asked_inside();
        let stand = self.stand();
        let step = answered(alloc, stand, &mut self.files, &self.task.work, port, &reply)?;
        Ok(self.take(step))
    }

    /// Starts a call: what ends by it. The mount is as it was after each refusal: `CallPending` (91) exactly where it is not ready or a call
    /// has not ended, else `BadName` (80) exactly where a word of the call is no path, or `/` where a directory is removed or a path
    /// renamed, and `NoMemory` (1) where memory has run out.
    ///
    /// Fewer than 2^32 - 1 calls were started before.
    pub fn start(
        &mut self,
        alloc: Global,
        call: &Call<Bytes>,
    ) -> Result<Option<MountNext>, StartFault>
        requires { self.old.files.calls + 1 < 2 ^ 32 }
        ensures ok { IfOk result (λ next. Starts self.old call.now (record { mount = self.new; next = next })) }
        ensures pending { IsErrOf result StartFault.CallPending ↔ (self.old.task.work ≢ Rests) }
        ensures bad_name { IsErrOf result StartFault.BadName → IsMisspelled call.now }
        ensures err { OnErr result (self.new ≡ self.old) }
    {
        if self.is_pending() {
            return Err(StartFault::CallPending);
        }
        let call = read_call(alloc, call)?;
        Ok(self.begin(alloc, call)?)
    }

    /// What is to be asked for file data now.
    fn data_ask(&mut self, busy: &[Option<u8>]) -> Option<Ask>
        ensures ask { result ≡ next_ask self.old busy.now (anchors_of self.old.position) }
        ensures asked { self.new ≡ having_put self.old (anchors_of self.old.position) result }
    {
        let volume = self.files.volume();
        let ask = self.task.ask.as_ref()?;
        if first_of(&volume, ask) < 8 * self.position.layout().first()
            || is_busy(busy, ask.chunk())
        {
            return None;
        }
        self.task.ask.take()
    }

    /// What is to be asked at an anchor now. By itself, since a stand is a copy of some kilobytes, and nearly every look at a port ends before it.
    /// After `NoMemory` (1), the one error, the mount is as it was.
    #[inline(never)]
    fn anchor_ask(
        &mut self,
        alloc: Global,
        anchor: u8,
        busy: &[Option<u8>],
    ) -> Result<Option<Ask>, NoMemory>
        requires { anchor < anchors_of self.old.position }
        ensures ok { IfOk result (λ ask. ask ≡ next_ask self.old busy.now anchor) }
        ensures asked { IfOk result (λ ask. self.new ≡ having_put self.old anchor ask) }
        ensures inside { IfOk result (AsksWithin self.old.files.volume) }
        ensures awaits { IfOk result (Awaits self.new anchor) }
        ensures err { OnErr result (self.new ≡ self.old) }
    {
        let Handed { stand, ask } = hands(alloc, self.stand(), &self.task.work, anchor)?;
        let Some(ask) = ask else {
            return Ok(None);
        };
        if is_busy(busy, ask.chunk()) {
            return Ok(None);
        }
        self.position = stand.position;
        self.errands = stand.errands;
        Ok(Some(ask))
    }

    /// Begins a call whose paths are read, with a sync. After `NoMemory` (1), the one error, the mount is as it was.
    fn begin(&mut self, alloc: Global, call: Call<Names>) -> Result<Option<MountNext>, NoMemory>
        requires free { self.old.task.work ≡ Rests }
        requires short { IsShortCall call }
        requires few { self.old.files.calls + 1 < 2 ^ 32 }
        ensures ok { IfOk result (λ next. record { mount = self.new; next = next } ≡ starting self.old call) }
        ensures err { OnErr result (self.new ≡ self.old) }
    {
        data_are_asked_inside();
        let stand = self.stand();
        let number = self.files.calls() + 1;
        let pending = Some(Pending { number, call });
        let step = syncs(alloc, stand, self.files.tree(), &pending)?;
        let Some(pending) = pending else {
            unreachable!();
        };
        self.files.start(pending.call);
        Ok(self.take(step))
    }

    /// Where it stands.
    fn stand(&self) -> Stand
        ensures stand { result ≡ stand_of self.now }
        ensures mount { IsMount self.now }
        ensures volume { IsVolume self.now.files.volume }
        ensures tree { IsTreeOf self.now.files.volume self.now.files.tables }
    {
        let volume = self.files.volume();
        self.files.laws();
        Stand {
            mount: self.files.mount(),
            volume,
            upto: self.upto,
            position: self.position,
            errands: self.errands,
        }
    }

    /// Whether something may be to be asked at an anchor: the work goes there, and nothing is pending. A host asks at each port in each of
    /// its steps, and a stand is a copy of some kilobytes.
    fn may_ask(&self, anchor: u8) -> bool
        ensures { result ≡ false → anchor_hands (stand_of self.now) self.now.task.work anchor ≡ hands_nothing (stand_of self.now) }
    {
        !matches!(
            self.task.work,
            MountWork::Rests | MountWork::Fails | MountWork::Moves(_)
        ) && self.errands.is_free(&self.position, anchor)
    }

    /// Takes over a step.
    fn take(&mut self, step: MountStep) -> Option<MountNext>
        requires { IsMount (taken self.old.files self.old.task step).mount }
        ensures { record { mount = self.new; next = result } ≡ taken self.old.files self.old.task step }
    {
        let MountStep {
            stand,
            task,
            ends,
            next,
        } = step;
        if ends {
            self.files.end();
        }
        self.upto = stand.upto;
        self.position = stand.position;
        self.errands = stand.errands;
        let Some(task) = task else {
            return next;
        };
        self.task = task;
        next
    }
}

/// What a new mount is at work on.
fn first_work(layout: Layout) -> MountWork
    ensures { result ≡ first_work (layout_of layout) }
{
    if layout.has_super() {
        MountWork::ReadsSuper
    } else {
        MountWork::Syncs(Looks::new())
    }
}

/// The sector of the volume, numbered through its chunks, at which an ask begins.
fn first_of(volume: &Volume, ask: &Ask) -> u32
    ensures { result ≡ first_of_ask volume.now ask.now }
{
    volume.laws();
    volume.sectors() * u32::from(ask.chunk()) + u32::from(ask.range().first())
}

/// Whether an ask for the chunk is pending.
fn is_busy(busy: &[Option<u8>], chunk: u8) -> bool
    ensures { result ≡ is_busy busy.now chunk }
{
    busy.iter()
        .any(|at| matches!(at, Some(its) if *its == chunk))
}
