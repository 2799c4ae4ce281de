//! Lines that move a chunk.
ghost use Rattle.std.specs.Prelude.{◌≡◌, ◌+◌, ◌^◌, ◌<◌, ◌≤◌, IfOk, None, OnErr, OnOk, length};
ghost use Rattle.pf_script.specs.declared.command.Command.TheVariants.{Move};
ghost use Rattle.pf_world.specs.Lines.{keeps_from_moving};
ghost use Rattle.pf_world.specs.Making.{HasBegunMove, HasMadeMore};
ghost use Rattle.pf_world.specs.Steps.{LineHasFailed, HasRun};
ghost use Rattle.pf_world.specs.Views.{IsWorld};

use crate::World;
use crate::kind::is_of_mounts;
use crate::making::make;
use pf_base::NoMemory;
use pf_disk::Disk;
use pf_group_copy::{Gate, Workers};
use pf_report::{LineRefusal, put_line_refusal, put_moving};
use std::thread::Threads;

/// A volume has at most so many groups.
const MOST_GROUPS: usize = 8;

impl<D: Disk + Drop> World<D> {
    /// A line that moves a chunk to a new group. Each host takes a step at its end, and the mover.
    ///
    /// `Raw` (95) comes exactly where no mount began the run, else `Moving` (101) exactly where a chunk is moving, else `NoSpare` (100)
    /// exactly where there are eight groups. The new group has the next six disks: one that fails while it is formatted stops its server.
    pub(crate) fn move_line<R: Threads + Sync, G: Gate + Sync>(
        &mut self,
        workers: &Workers<'_, R, G>,
        number: u32,
        chunk: u8,
        out: &mut Vec<u8>,
    ) -> Result<(), NoMemory>
        requires world { IsWorld self.old.world }
        requires chunk { chunk < self.old.world.fleet.volume.chunks }
        requires lines { self.old.world.moves + 1 < 2 ^ 32 }
        requires disks { length self.old.world.chunks < 8 → 6 ≤ length self.old.spare }
        ensures ran { OnOk result (HasRun self.old.world number (Move chunk) out.old.items out.new.items self.new.world) }
        ensures err { OnErr result (LineHasFailed self.old.world number (Move chunk) self.new.world) }
        ensures made { HasMadeMore D.faults self.old self.new }
    {
        self.moves += 1;
        if !is_of_mounts(self.kind) {
            return put_line_refusal(out, number, LineRefusal::Raw);
        }
        if let Some(refusal) = self.keeps_from_moving() {
            self.step_hosts(workers, out)?;
            return put_line_refusal(out, number, refusal);
        }
        let group = self.begin_move(workers, chunk)?;
        self.step_hosts(workers, out)?;
        put_moving(out, number, group)
    }

    /// What keeps a chunk from moving, if anything does.
    fn keeps_from_moving(&self) -> Option<LineRefusal>
        ensures { result ≡ keeps_from_moving self.now.world.fleet.routes (length self.now.world.chunks) }
    {
        if self.fleet.is_moving() {
            Some(LineRefusal::Moving)
        } else if self.chunks.len() >= MOST_GROUPS {
            Some(LineRefusal::NoSpare)
        } else {
            None
        }
    }

    /// Makes a new group, and begins to move the chunk to it. `NoMemory` (1) leaves the world as it was.
    fn begin_move<R: Threads + Sync, G: Gate + Sync>(
        &mut self,
        workers: &Workers<'_, R, G>,
        chunk: u8,
    ) -> Result<u8, NoMemory>
        requires world { IsWorld self.old.world }
        requires chunk { chunk < self.old.world.fleet.volume.chunks }
        requires none { self.old.world.fleet.routes.moving ≡ None }
        requires few { length self.old.world.chunks < 8 }
        requires moves { length self.old.world.chunks < self.old.world.fleet.volume.chunks + self.old.world.moves }
        requires disks { 6 ≤ length self.old.spare }
        ensures begun { IfOk result (λ group. HasBegunMove D.faults D.tells chunk self.old group self.new) }
        ensures err { OnErr result (self.new ≡ self.old) }
    {
        let number = self.chunks.len() as u8;
        self.chunks.reserve(1)?;
        let (group, _) = make(
            workers.alloc,
            number,
            self.sectors,
            self.names,
            self.format,
            &mut self.spare,
        )?;
        self.fleet
            .begin_move(workers.alloc, chunk, group, &mut self.chunks);
        Ok(number)
    }
}
