//! Copies on several threads.
ghost use Rattle.std.specs.Prelude.{◌≡◌, ℕ, Some, slice_get};
ghost use Rattle.pf_group_copy.specs.Works.{AreBrought, WorkIsBrought};

use crate::filling::copied;
use crate::gate::Gate;
use crate::work::CopyWork;
use crate::workers::Workers;
use pf_base::{Filled, NoMemory};
use std::alloc::Global;
use std::thread;
use std::thread::Threads;

/// Copies the sectors of a job.
fn bring(alloc: Global, work: &mut CopyWork)
    ensures { WorkIsBrought work.old work.new }
{
    work.filled = match copied(alloc, &work.job.op) {
        Ok((range, sectors)) => Some(Filled {
            server: work.job.server,
            life: work.job.life,
            slot: work.job.slot,
            range,
            sectors,
        }),
        Err(NoMemory) => None,
    };
}

/// The place of a job in its round, as a gate is told it.
fn place(i: usize) -> u32 {
    u32::try_from(i).unwrap_or(u32::MAX)
}

impl<R: Threads + Sync, G: Gate + Sync> Workers<'_, R, G> {
    /// Copies the sectors of each job, each copy between the two calls of the gate. A job whose copy found no memory has none.
    pub fn bring_all(&self, works: &mut [CopyWork])
        ensures { AreBrought works.old works.new }
    {
        let (alloc, gate) = (self.alloc, self.gate);
        thread::for_each_mut(
            self.rt,
            works,
            self.count as usize,
            &|i, work: &mut CopyWork| {
                gate.before(place(i));
                bring(alloc, work);
                gate.after(place(i));
            },
        );
    }
}
