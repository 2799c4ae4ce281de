//! The work of a job, outside of any turn.
ghost use Rattle.std.specs.Prelude.{◌≡◌, IfErr, IfOk};
ghost use Rattle.pf_group_copy.specs.Filling.{filled_of, sectors_of, span_of_op};

use pf_base::{Filled, NoMemory, Range, Sectors};
use pf_entry::{Job, Op};
use std::alloc::Global;

/// The range of an op, and a copy of its sectors. A no-op and a mark have none.
pub(crate) fn copied(alloc: Global, op: &Op) -> Result<(Range, Sectors), NoMemory>
    ensures { IfOk result (λ copied. (copied.0 ≡ span_of_op op.now) × (copied.1 ≡ sectors_of op.now)) }
{
    match op {
        Op::Write { range, payload } => {
            let sectors = Vec::from_slice(alloc, payload.as_slice())?;
            Ok((*range, Sectors::new(sectors)))
        }
        Op::Noop => Ok((Range::none(), Sectors::new(Vec::new(alloc)))),
        Op::Mark => Ok((Range::none(), Sectors::new(Vec::new(alloc)))),
    }
}

/// Copies the sectors of a job's op. A no-op and a mark have an empty range and no sectors. `NoMemory` (1) gives the job back.
pub fn fill(alloc: Global, job: Job) -> Result<Filled, (Job, NoMemory)>
    ensures filled { IfOk result (λ filled. filled ≡ filled_of job) }
    ensures back { IfErr result (λ back. back.0 ≡ job) }
{
    match copied(alloc, &job.op) {
        Ok((range, sectors)) => Ok(Filled {
            server: job.server,
            life: job.life,
            slot: job.slot,
            range,
            sectors,
        }),
        Err(NoMemory) => Err((job, NoMemory)),
    }
}
