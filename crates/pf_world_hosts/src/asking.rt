//! What a line asks of a group, and what follows on it.
ghost use Rattle.std.specs.Prelude.{◌<◌, IfOk, OnErr, length};
ghost use Rattle.pf_mount_host.specs.pf_chunk.specs.Asked.{ChunkMayAsk, asked_happened};
ghost use Rattle.pf_mount_host.specs.pf_world_moments.specs.Steps.{AreReady};
ghost use Rattle.pf_world_hosts.specs.Steps.{AreSameHosts, FleetHasAnswered, HasNotAnswered, IsFleetOf};

use crate::Fleet;
use pf_base::NoMemory;
use pf_disk::Disk;
use pf_group_copy::{Gate, Workers};
use pf_mount_host::pf_chunk::{ChunkGroup, LineAsk};
use pf_protocol::Answer;
use std::thread::Threads;

impl Fleet {
    /// What a line asks of group `at`. What that made free is applied; a line for each read of a line that was answered is put at the end of `out`;
    /// and then each host takes its step, and the mover.
    ///
    /// After `NoMemory` (1) each group stands at a beginning of what would have happened to it; the hosts are not for use then.
    pub fn ask<D: Disk + Drop, R: Threads + Sync, G: Gate + Sync>(
        &mut self,
        workers: &Workers<'_, R, G>,
        chunks: &mut [ChunkGroup<D>],
        at: u8,
        asked: LineAsk,
        out: &mut Vec<u8>,
    ) -> Result<Answer, NoMemory>
        requires ready { AreReady chunks.old }
        requires fleet { IsFleetOf chunks.old self.old }
        requires at { at < length chunks.old }
        requires asked { ChunkMayAsk asked }
        ensures went { IfOk result (λ answer. FleetHasAnswered (λ halts c. asked_happened halts asked c) at chunks.old self.old out.old.items answer chunks.new
            self.new out.new.items) }
        ensures same { IfOk result (λ answer. AreSameHosts self.old self.new) }
        ensures err { OnErr result (HasNotAnswered (λ halts c. asked_happened halts asked c) at chunks.old self.old chunks.new) }
    {
        let chunk = &mut chunks[at as usize];
        let answer = chunk.ask(workers, asked, out)?;
        self.step(workers, chunks, out)?;
        Ok(answer)
    }
}
