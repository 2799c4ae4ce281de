//! Steps of hosts, and of the mover.
ghost use Rattle.std.specs.Prelude.{◌<◌, OnErr, OnOk, length};
ghost use Rattle.pf_mount_host.specs.pf_world_moments.specs.Steps.{AreReady};
ghost use Rattle.pf_world_hosts.specs.Steps.{AllStay, AreSameHosts, FleetHasGone, FleetHasStopped, IsFleetOf};
ghost use Rattle.pf_world_hosts.specs.Volumes.{all_step, host_steps, hosts_step};

use crate::Fleet;
use pf_base::NoMemory;
use pf_disk::Disk;
use pf_group_copy::{Gate, Workers};
use pf_mount_host::pf_chunk::ChunkGroup;
use std::thread::Threads;

impl Fleet {
    /// One step of a host, if it is there.
    fn step_host<D: Disk + Drop, R: Threads + Sync, G: Gate + Sync>(
        &mut self,
        workers: &Workers<'_, R, G>,
        mount: usize,
        chunks: &mut [ChunkGroup<D>],
        out: &mut Vec<u8>,
    ) -> Result<(), NoMemory>
        requires ready { AreReady chunks.old }
        requires fleet { IsFleetOf chunks.old self.old }
        requires mount { mount < length self.old.hosts }
        ensures went { OnOk result (FleetHasGone (λ halts v. host_steps halts mount v) chunks.old self.old out.old.items chunks.new self.new out.new.items) }
        ensures same { OnOk result (AreSameHosts self.old self.new) }
        ensures stay { OnOk result (AllStay chunks.old chunks.new) }
        ensures err { OnErr result (FleetHasStopped (λ halts v. host_steps halts mount v) chunks.old self.old chunks.new) }
    {
        let Some(host) = &mut self.hosts[mount] else {
            return Ok(());
        };
        host.step(workers, &self.routes, chunks, out)
    }

    /// One step of each host, in the order of their numbers.
    fn step_hosts<D: Disk + Drop, R: Threads + Sync, G: Gate + Sync>(
        &mut self,
        workers: &Workers<'_, R, G>,
        chunks: &mut [ChunkGroup<D>],
        out: &mut Vec<u8>,
    ) -> Result<(), NoMemory>
        requires ready { AreReady chunks.old }
        requires fleet { IsFleetOf chunks.old self.old }
        ensures went { OnOk result (FleetHasGone hosts_step chunks.old self.old out.old.items chunks.new self.new out.new.items) }
        ensures same { OnOk result (AreSameHosts self.old self.new) }
        ensures stay { OnOk result (AllStay chunks.old chunks.new) }
        ensures err { OnErr result (FleetHasStopped hosts_step chunks.old self.old chunks.new) }
    {
        for mount in 0..self.hosts.len() {
            self.step_host(workers, mount, chunks, out)?;
        }
        Ok(())
    }

    /// One step of each host, in the order of their numbers, and then one of the mover. Lines are put at the end of `out`: of reads of lines
    /// that were answered, of mounts that are ready, of calls that ended, of a chunk that has moved.
    ///
    /// After `NoMemory` (1) each group stands at a beginning of what would have happened to it; the hosts are not for use then.
    pub fn step<D: Disk + Drop, R: Threads + Sync, G: Gate + Sync>(
        &mut self,
        workers: &Workers<'_, R, G>,
        chunks: &mut [ChunkGroup<D>],
        out: &mut Vec<u8>,
    ) -> Result<(), NoMemory>
        requires ready { AreReady chunks.old }
        requires fleet { IsFleetOf chunks.old self.old }
        ensures went { OnOk result (FleetHasGone all_step chunks.old self.old out.old.items chunks.new self.new out.new.items) }
        ensures same { OnOk result (AreSameHosts self.old self.new) }
        ensures stay { OnOk result (AllStay chunks.old chunks.new) }
        ensures err { OnErr result (FleetHasStopped all_step chunks.old self.old chunks.new) }
    {
        self.step_hosts(workers, chunks, out)?;
        self.carry(workers, chunks, out)
    }
}
