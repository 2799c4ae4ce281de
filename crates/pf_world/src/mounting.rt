//! Lines that make a mount, end one, or begin a call of one.
ghost use Rattle.std.specs.Prelude.{◌≡◌, ◌<◌, ◌+◌, ◌^◌, OnErr, OnOk};
ghost use Rattle.pf_script.specs.declared.command.Command.TheVariants as commands;
ghost use Rattle.pf_world_hosts.specs.pf_world_moments.specs.Steps.{AreReady};
ghost use Rattle.pf_world_hosts.specs.Steps.{AreSameHosts, FleetHasGone, FleetHasStopped, IsFleetOf};
ghost use Rattle.pf_world_hosts.specs.Volumes.{all_step};
ghost use Rattle.pf_world.specs.Steps.{LineHasFailed, HasRun};
ghost use Rattle.pf_world.specs.Views.{IsWorld};

use crate::World;
use crate::kind::Kind;
use pf_base::{Bytes, Call, NoMemory};
use pf_disk::Disk;
use pf_group_copy::{Gate, Workers};
use pf_protocol::Answer;
use pf_report::{LineRefusal, put_answer, put_line_refusal, put_mount, put_refusal, put_started};
use pf_world_hosts::{HostCallFault, JoinFault};
use std::thread::Threads;

impl<D: Disk + Drop> World<D> {
    /// A line that makes a mount. Each host takes a step at its end.
    pub(crate) fn mount_line<R: Threads + Sync, G: Gate + Sync>(
        &mut self,
        workers: &Workers<'_, R, G>,
        number: u32,
        out: &mut Vec<u8>,
    ) -> Result<(), NoMemory>
        requires world { IsWorld self.old.world }
        ensures ran { OnOk result (HasRun self.old.world number commands.Mount out.old.items out.new.items self.new.world) }
        ensures err { OnErr result (LineHasFailed self.old.world number commands.Mount self.new.world) }
        ensures spare { self.new.spare ≡ self.old.spare }
    {
        let kind = Kind::Mounted.decided(self.kind);
        self.kind = Some(kind);
        if !kind.is_mounted() {
            return put_line_refusal(out, number, LineRefusal::Raw);
        }
        match self.fleet.mount(workers.alloc, &mut self.chunks) {
            Ok(mount) => {
                self.step_hosts(workers, out)?;
                put_mount(out, number, mount)
            }
            Err(fault) => match fault {
                JoinFault::NoMemory => Err(NoMemory),
                _ => {
                    self.step_hosts(workers, out)?;
                    put_refusal(out, number, fault.number())
                }
            },
        }
    }

    /// A line that ends a mount.
    pub(crate) fn kill_line(
        &mut self,
        number: u32,
        mount: u8,
        out: &mut Vec<u8>,
    ) -> Result<(), NoMemory>
        requires world { IsWorld self.old.world }
        ensures ran { OnOk result (HasRun self.old.world number (commands.Kill mount) out.old.items out.new.items self.new.world) }
        ensures err { OnErr result (LineHasFailed self.old.world number (commands.Kill mount) self.new.world) }
        ensures spare { self.new.spare ≡ self.old.spare }
    {
        match self.fleet.kill(mount) {
            Ok(()) => put_answer(out, number, &Answer::Done),
            Err(fault) => put_refusal(out, number, fault.number()),
        }
    }

    /// A line that begins a call of a mount. Each host takes a step at its end.
    pub(crate) fn call_line<R: Threads + Sync, G: Gate + Sync>(
        &mut self,
        workers: &Workers<'_, R, G>,
        number: u32,
        mount: u8,
        call: &Call<Bytes>,
        out: &mut Vec<u8>,
    ) -> Result<(), NoMemory>
        requires world { IsWorld self.old.world }
        requires few { self.old.world.fleet.calls + 1 < 2 ^ 32 }
        ensures ran { OnOk result (HasRun self.old.world number (commands.Call mount call.now) out.old.items out.new.items self.new.world) }
        ensures err { OnErr result (LineHasFailed self.old.world number (commands.Call mount call.now) self.new.world) }
        ensures spare { self.new.spare ≡ self.old.spare }
    {
        match self
            .fleet
            .call(workers.alloc, mount, call, &mut self.chunks, out)
        {
            Ok(()) => {
                self.step_hosts(workers, out)?;
                put_started(out, number)
            }
            Err(fault) => match fault {
                HostCallFault::NoMemory => Err(NoMemory),
                _ => {
                    self.step_hosts(workers, out)?;
                    put_refusal(out, number, fault.number())
                }
            },
        }
    }

    /// Each host takes a step, and the mover.
    pub(crate) fn step_hosts<R: Threads + Sync, G: Gate + Sync>(
        &mut self,
        workers: &Workers<'_, R, G>,
        out: &mut Vec<u8>,
    ) -> Result<(), NoMemory>
        requires ready { AreReady self.old.world.chunks }
        requires fleet { IsFleetOf self.old.world.chunks self.old.world.fleet }
        ensures went { OnOk result (FleetHasGone all_step self.old.world.chunks self.old.world.fleet out.old.items self.new.world.chunks self.new.world.fleet
            out.new.items) }
        ensures same { OnOk result (AreSameHosts self.old.world.fleet self.new.world.fleet) }
        ensures err { OnErr result (FleetHasStopped all_step self.old.world.chunks self.old.world.fleet self.new.world.chunks) }

        // All else of the world is as it was.
        ensures others { self.new.world ≡ record self.old.world { chunks = self.new.world.chunks; fleet = self.new.world.fleet } }
        ensures spare { self.new.spare ≡ self.old.spare }
    {
        self.fleet.step(workers, &mut self.chunks, out)
    }
}
