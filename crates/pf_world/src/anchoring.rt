//! Lines that lay the journal on three anchors.
ghost use Rattle.std.specs.Prelude.{◌≡◌, OnErr, OnOk};
ghost use Rattle.pf_script.specs.declared.command.Command.TheVariants.{Anchors};
ghost use Rattle.pf_world.specs.Lines.{are_late, keeps_from_anchors, lacks_anchors};
ghost use Rattle.pf_world.specs.Steps.{LineHasFailed, HasRun};
ghost use Rattle.pf_world.specs.Views.{IsWorld};

use crate::World;
use crate::kind::is_raw;
use pf_base::NoMemory;
use pf_disk::Disk;
use pf_protocol::Answer;
use pf_report::{LineRefusal, put_answer, put_line_refusal};

impl<D: Disk + Drop> World<D> {
    /// A line that lays the journal on chunks 0, 1 and 2 at once. No host takes a step at its end.
    ///
    /// `Raw` (95) comes exactly where a line of the script that submits or runs threads began the run, else `TooLate` (99) exactly where a
    /// mount was made or the journal lies on three anchors, else `NoAnchors` (98) exactly where the volume has fewer than 4 chunks, or fewer
    /// than 4,096 sectors in each.
    pub(crate) fn anchors_line(&mut self, number: u32, out: &mut Vec<u8>) -> Result<(), NoMemory>
        requires world { IsWorld self.old.world }
        ensures ran { OnOk result (HasRun self.old.world number Anchors out.old.items out.new.items self.new.world) }
        ensures err { OnErr result (LineHasFailed self.old.world number Anchors self.new.world) }
        ensures spare { self.new.spare ≡ self.old.spare }
    {
        if let Some(refusal) = self.keeps_from_anchors() {
            return put_line_refusal(out, number, refusal);
        }
        self.fleet.anchor();
        put_answer(out, number, &Answer::Done)
    }

    /// What keeps the journal from three anchors, if anything does.
    fn keeps_from_anchors(&self) -> Option<LineRefusal>
        requires world { IsWorld self.now.world }
        ensures { result ≡ keeps_from_anchors self.now.world.kind self.now.world.fleet.layout self.now.world.fleet.hosts self.now.world.fleet.volume }
    {
        if is_raw(self.kind) {
            Some(LineRefusal::Raw)
        } else if self.is_late() {
            Some(LineRefusal::TooLate)
        } else if self.lacks_anchors() {
            Some(LineRefusal::NoAnchors)
        } else {
            None
        }
    }

    /// Whether the journal lies on three anchors, or a mount was made.
    fn is_late(&self) -> bool
        ensures { result ≡ are_late self.now.world.fleet.layout self.now.world.fleet.hosts }
    {
        self.fleet.is_anchored() || self.fleet.mount_count() > 0
    }

    /// Whether there are too few chunks, or too few sectors in each.
    fn lacks_anchors(&self) -> bool
        requires world { IsWorld self.now.world }
        ensures { result ≡ lacks_anchors self.now.world.fleet.volume }
    {
        !self.fleet.has_anchors()
    }
}
