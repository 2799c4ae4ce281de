//! The ends of jobs.
ghost use Rattle.std.specs.Prelude.{◌≡◌, ◌++◌, [], Some, vec_len};
ghost use Rattle.std.specs.Option.{option_to_list};
ghost use Rattle.pf_protocol.specs.Answers.{claims_of};
ghost use Rattle.pf_group_copy.specs.Filling.{filled_of};
ghost use Rattle.pf_group_rounds.specs.Adding.{Adds, HasFinished, HasReturned};
ghost use Rattle.pf_group_rounds.specs.Following.{IsFinished};
ghost use Rattle.pf_group_rounds.specs.Open.{AreFilled, AreOpen, JobIsOpen, jobs_of};

use pf_disk::Disk;
use pf_entry::Job;
use pf_group::{Group, GroupEvent};
use pf_group_copy::CopyWork;
use std::alloc::Global;

/// Finishes a job. It takes no memory.
fn finish<D: Disk + Drop>(alloc: Global, group: &mut Group<D>, work: CopyWork)
    requires hand { JobIsOpen group.old.history work.job }
    requires filled { work.filled ≡ Some (filled_of work.job) }
    ensures { HasFinished group.old work.job group.new }
{
    let CopyWork { job: _, filled } = work;
    let Some(filled) = filled else { unreachable!() };
    let Ok(_) = group.step(alloc, GroupEvent::Finish(filled)) else {
        unreachable!()
    };
}

/// Finishes these jobs, in the order of their claims. It takes no memory.
pub(crate) fn finish_all<D: Disk + Drop>(alloc: Global, group: &mut Group<D>, works: Vec<CopyWork>)
    requires hand { AreOpen group.old.history (jobs_of works.items) }
    requires filled { AreFilled works.items }
    ensures adds { Adds group.old group.new 0 (vec_len works) }
    ensures none { claims_of [] group.new.history ≡ [] }
    ensures run { IsFinished group.old group.new (jobs_of works.items) }
{
    for work in works {
        finish(alloc, group, work);
    }
}

/// Gives all these jobs back, and then the last one, which has no place among them. It takes no memory.
pub(crate) fn give_all_back<D: Disk + Drop>(
    group: &mut Group<D>,
    works: Vec<CopyWork>,
    last: Option<Job>,
)
    requires { AreOpen group.old.history (jobs_of works.items ++ option_to_list last) }
    ensures returned { HasReturned group.old group.new }
    ensures none { claims_of [] group.new.history ≡ [] }
{
    for work in works {
        let CopyWork { job, filled: _ } = work;
        group.give_back(job);
    }
    let Some(job) = last else {
        return;
    };
    group.give_back(job);
}
