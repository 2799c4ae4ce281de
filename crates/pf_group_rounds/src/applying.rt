//! Rounds of claims and finishes.
ghost use Rattle.std.specs.Prelude.{◌≡◌, ◌≤◌, ℕ, List, [], IfOk, IsTrue, OnErr, OnOk, is_some};
ghost use Rattle.std.specs.List.{list_all};
ghost use Rattle.pf_protocol.specs.Answers.{claims_of};
ghost use Rattle.pf_protocol.specs.Histories.{RunsAs};
ghost use Rattle.pf_protocol.specs.Servers.{Server};
ghost use Rattle.pf_group.specs.GroupIs.{state_of};
ghost use Rattle.pf_group_rounds.specs.Adding.{Adds, GroupGoes, HasReturned};
ghost use Rattle.pf_group_rounds.specs.Agreeing.{TellsOfGroup, chunk_standing};
ghost use Rattle.pf_group_rounds.specs.Begun.{GroupHasBegun};
ghost use Rattle.pf_group_rounds.specs.Growing.{HasGrown};
ghost use Rattle.pf_group_rounds.specs.Closed.{IsClosed};
ghost use Rattle.pf_group_rounds.specs.Following.{IsRound};
ghost use Rattle.pf_group_rounds.specs.Halts.{Halt};
ghost use Rattle.pf_group_rounds.specs.Open.{AreFilled, jobs_of};
ghost use Rattle.pf_group_rounds.specs.Rounds.{IsApplied, applied, finishes_since};

use crate::claiming::{ENOUGH, claim_all};
use crate::ending::{finish_all, give_all_back};
use pf_base::NoMemory;
use pf_disk::Disk;
use pf_group::Group;
use pf_group_copy::{CopyWork, Gate, Workers};
use std::thread::Threads;

/// Whether each job has its sectors.
fn are_filled(works: &[CopyWork]) -> bool
    ensures { result ≡ list_all (λ w. is_some w.filled) works.now }
{
    works.iter().all(|work| work.filled.is_some())
}

/// Copies the sectors of each job. `NoMemory` (1) where one has none.
fn copy_all<R: Threads + Sync, G: Gate + Sync>(
    workers: &Workers<'_, R, G>,
    works: &mut Vec<CopyWork>,
) -> Result<(), NoMemory>
    ensures jobs { jobs_of works.new.items ≡ jobs_of works.old.items }
    ensures filled { OnOk result (AreFilled works.new.items) }
{
    workers.bring_all(works.as_mut_slice());
    if are_filled(works.as_slice()) {
        Ok(())
    } else {
        Err(NoMemory)
    }
}

/// One round: claims jobs until none is free, copies their sectors, and finishes them in the order of their claims. The answer is how
/// many there were. Where memory runs out (`NoMemory`, 1) all jobs of the round are given back.
fn round<D: Disk + Drop, R: Threads + Sync, G: Gate + Sync>(
    workers: &Workers<'_, R, G>,
    group: &mut Group<D>,
) -> Result<u64, NoMemory>
    requires none { claims_of [] group.old.history ≡ [] }
    ensures goes { GroupGoes group.old group.new }
    ensures none { claims_of [] group.new.history ≡ [] }
    ensures adds { IfOk result (λ count. Adds group.old group.new count count) }
    ensures few { IfOk result (λ count. count ≤ ENOUGH) }
    ensures run { IfOk result (λ count. IsRound group.old group.new count) }
    ensures applied { IfOk result (λ count. count ≡ 0 → IsTrue group.new.told → IsApplied group.new.setup (state_of group.new)) }
    ensures returned { OnErr result (HasReturned group.old group.new) }
{
    let alloc = workers.alloc;
    let mut works = Vec::new(alloc);
    if let Err(last) = claim_all(alloc, group, &mut works) {
        give_all_back(group, works, last);
        return Err(NoMemory);
    }
    if works.is_empty() {
        return Ok(0);
    }
    if let Err(NoMemory) = copy_all(workers, &mut works) {
        give_all_back(group, works, None);
        return Err(NoMemory);
    }
    let count = works.len() as u64;
    finish_all(alloc, group, works);
    Ok(count)
}

/// Applies everything that can be applied, in rounds: jobs are claimed until none is free, their sectors are copied, and they are
/// finished in the order of their claims, until a round claims nothing. Where the disks tell their content, each running server has then
/// applied all that its look-behind lists allow. The answer is how many jobs were finished.
///
/// Where memory runs out (`NoMemory`, 1) all jobs of that round are given back, and the rounds before it stand: a beginning of what it
/// would have done.
pub fn apply_all<D: Disk + Drop, R: Threads + Sync, G: Gate + Sync>(
    workers: &Workers<'_, R, G>,
    group: &mut Group<D>,
) -> Result<u64, NoMemory>
    requires none { claims_of [] group.old.history ≡ [] }
    ensures grown { HasGrown group.old group.new }
    ensures taken { group.new.taken ≡ group.old.taken }
    ensures none { claims_of [] group.new.history ≡ [] }
    ensures run { OnOk result ((halts : List Halt) → TellsOfGroup halts group.new
        → applied halts (chunk_standing halts group.old) ≡ chunk_standing halts group.new) }
    ensures applied { OnOk result (IsTrue group.new.told → IsApplied group.new.setup (state_of group.new)) }
    ensures begun { OnErr result ((halts : List Halt) → TellsOfGroup halts group.new
        → GroupHasBegun halts group.old (applied halts (chunk_standing halts group.old)) group.new) }
    ensures closed { OnOk result (IsTrue group.new.told → (i : ℕ) (s : Server) → RunsAs (state_of group.new) i s → IsClosed s) }
    ensures adds { IfOk result (λ count. Adds group.old group.new count count) }
    ensures count { IfOk result (λ count. count ≡ finishes_since group.old.history group.new.history) }
{
    let mut count: u64 = 0;
    for _ in 0..ENOUGH {
        let Ok(done) = round(workers, group) else {
            // In a legal history jobs that were claimed and given back leave the group as it was.
            group.laws();
            return Err(NoMemory);
        };
        if done == 0 {
            // In a legal history, where nothing is in hand and nothing is free, what can be applied is applied.
            group.laws();
            return Ok(count);
        }
        count += done;
    }
    // So many jobs do not stand in a legal history, so this is never reached where the disks tell their content.
    group.laws();
    Ok(count)
}
