//! Lines of threads.
ghost use Rattle.std.specs.Prelude.{◌≡◌, ◌<◌, OnErr, OnOk, length};
ghost use Rattle.pf_script.specs.declared.command.Command.TheVariants.{Live};
ghost use Rattle.pf_world.specs.Steps.{LineHasFailed, HasRun, MayRun};
ghost use Rattle.pf_world.specs.Views.{IsWorld, named_in};

use crate::World;
use crate::kind::Kind;
use pf_base::NoMemory;
use pf_disk::Disk;
use pf_group_copy::{Gate, Workers};
use pf_live_session::live_at;
use pf_live_session::pf_live_seats::LinePlan;
use pf_report::{LineRefusal, put_line_refusal, put_live};
use std::sync::Wait;
use std::thread::Threads;

impl<D: Disk + Drop + Send> World<D> {
    /// A line of threads with this plan. In a run with mounts it is refused; in any other the world keeps the passes of its rings and of its
    /// leader cell.
    pub(crate) fn live_line<R: Threads + Wait + Sync, G: Gate + Sync>(
        &mut self,
        workers: &Workers<'_, R, G>,
        number: u32,
        group: u8,
        plan: LinePlan,
        out: &mut Vec<u8>,
    ) -> Result<(), NoMemory>
        requires world { IsWorld self.old.world }
        requires made { group < length self.old.world.chunks }
        requires command { MayRun (named_in self.old.world) (Live group plan.hosts plan.writes plan.workers plan.turns) }
        requires sectors { plan.sectors ≡ self.old.world.sectors }
        ensures ran { OnOk result (HasRun self.old.world number (Live group plan.hosts plan.writes plan.workers plan.turns) out.old.items out.new.items
            self.new.world) }
        ensures err { OnErr result (LineHasFailed self.old.world number (Live group plan.hosts plan.writes plan.workers plan.turns) self.new.world) }
        ensures spare { self.new.spare ≡ self.old.spare }
    {
        let kind = Kind::Raw.decided(self.kind);
        self.kind = Some(kind);
        if kind.is_mounted() {
            return put_line_refusal(out, number, LineRefusal::Mounted);
        }
        let lived = live_at(workers, &mut self.chunks, group, plan, out)?;
        self.step_hosts(workers, out)?;
        let totals = lived.totals;
        put_live(out, number, totals.acked, totals.applied, lived.end)?;
        self.passes = Some(lived.passes);
        Ok(())
    }
}
