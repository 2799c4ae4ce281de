//! Claims until no job is free.
ghost use Rattle.std.specs.Prelude.{◌≡◌, ◌<◌, ◌≤◌, ◌++◌, [], IfErr, IsTrue, OnOk, vec_len};
ghost use Rattle.std.specs.Option.{option_to_list};
ghost use Rattle.pf_protocol.specs.Answers.{claims_of};
ghost use Rattle.pf_group_rounds.specs.Adding.{Adds, HasReturned};
ghost use Rattle.pf_group.specs.GroupIs.{state_of};
ghost use Rattle.pf_group_rounds.specs.Following.{IsClaimed};
ghost use Rattle.pf_group_rounds.specs.Open.{AreOpen, jobs_of};
ghost use Rattle.pf_group_rounds.specs.Rounds.{IsApplied};

use pf_disk::Disk;
use pf_entry::Job;
use pf_group::Group;
use pf_group_copy::CopyWork;
use std::alloc::Global;

/// More than the slots that three servers can have to apply: a round, or a claim, more than so many finds none.
pub(crate) const ENOUGH: u32 = 12_289;

/// Claims jobs until none is free, at most `ENOUGH`. Where memory runs out those that were claimed stand in `works`, and the error is the
/// last of them where it has no place there.
pub(crate) fn claim_all<D: Disk + Drop>(
    alloc: Global,
    group: &mut Group<D>,
    works: &mut Vec<CopyWork>,
) -> Result<(), Option<Job>>
    requires works { works.old.items ≡ [] }
    requires none { claims_of [] group.old.history ≡ [] }
    ensures adds { OnOk result (Adds group.old group.new (vec_len works.new) 0) }
    ensures hand { OnOk result (AreOpen group.new.history (jobs_of works.new.items)) }
    ensures few { vec_len works.new ≤ ENOUGH }
    ensures run { OnOk result (IsClaimed group.old group.new (jobs_of works.new.items)) }
    ensures applied { OnOk result (IsTrue group.new.told → vec_len works.new < ENOUGH → IsApplied group.new.setup (state_of group.new)) }
    ensures short { IfErr result (λ last. HasReturned group.old group.new × AreOpen group.new.history (jobs_of works.new.items ++ option_to_list last)) }
{
    for _ in 0..ENOUGH {
        let Ok(claimed) = group.claim(alloc) else {
            return Err(None);
        };
        let Some(job) = claimed else {
            return Ok(());
        };
        let Ok(_) = works.reserve(1) else {
            return Err(Some(job));
        };
        let _ = works.push(CopyWork { job, filled: None });
    }
    Ok(())
}
