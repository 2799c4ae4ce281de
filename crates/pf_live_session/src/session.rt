//! A live line over one group, from its beginning to its end.
ghost use Rattle.std.specs.Prelude.{◌≡◌, [], IfOk, OnErr};
ghost use Rattle.pf_protocol.specs.Answers.{claims_of};
ghost use Rattle.pf_live_line.specs.pf_group_rounds.specs.Growing.{HasGrown};
ghost use Rattle.pf_live_line.specs.pf_shared.specs.Seats.{root_in, splits_of};
ghost use Rattle.pf_live_line.specs.Crews.{IsCrew};
ghost use Rattle.pf_live_session.specs.Totals.{IsBeginning};
ghost use Rattle.pf_live_session.specs.GroupSessions.{HasLived, LineHasStopped};

use crate::lent::LentGroup;
use crate::totals::{Beginning, Totals};
use pf_base::{LiveEnd, NoMemory};
use pf_disk::Disk;
use pf_group_copy::{Gate, Workers};
use pf_live_line::pf_group::Group;
use pf_live_line::pf_group_rounds::apply_all;
use pf_live_line::pf_live_seats::{LinePlan, LiveLine};
use pf_live_line::{Crew, Passes, close, open, run_to_end};
use std::sync::Wait;
use std::thread::Threads;

/// What became of a live line.
#[derive(Drop)]
pub struct Lived {
    pub end: LiveEnd,
    pub totals: Totals,
    /// The rings and the leader cell of the line, with their passes.
    pub passes: Passes,
}

/// One live line over a group in whose history no claim is open, over any disks. Its hosts, the worker that submits, the switch and the workers that apply
/// take turns with the group, each in a thread of its own where one can be started, as often as it takes to come to an end; then what is
/// free is applied, on as many threads as the plan has workers that apply. The gate is called round each step of a thread. The group comes back with
/// all that happened to it.  `NoMemory` (1) where memory ran out, or the line would have 2^32 seats: the group comes back whole, with what was done
/// until then.
pub fn live<R: Threads + Wait + Sync, D: Disk + Drop + Send, G: Gate + Sync>(
    workers: &Workers<'_, R, G>,
    group: Group<D>,
    plan: LinePlan,
) -> (Group<D>, Result<Lived, NoMemory>)
    requires none { claims_of [] group.history ≡ [] }
    ensures grown { HasGrown group result.0 }
    ensures none { claims_of [] result.0.history ≡ [] }
    ensures lived { IfOk result.1 (λ lived. HasLived plan group lived result.0) }
    ensures stopped { OnErr result.1 (LineHasStopped plan group result.0) }
{
    let began = Beginning::of(&group);
    match open(workers.alloc, group, plan, LentGroup(workers.gate)) {
        Ok((line, crew)) => play(workers, line, crew, began),
        Err((group, NoMemory)) => (group, Err(NoMemory)),
    }
}

/// A line that was opened, from its beginning to its end; then what is free is applied. `NoMemory` (1) where memory ran out, or the line
/// would have 2^32 seats: the group comes back whole, with what was done until then.
fn play<R: Threads + Wait + Sync, D: Disk + Drop + Send, G: Gate + Sync>(
    workers: &Workers<'_, R, G>,
    line: LiveLine<D, LentGroup<'_, G>>,
    crew: Crew<D>,
    began: Beginning,
) -> (Group<D>, Result<Lived, NoMemory>)
    requires crew { IsCrew line.group line.cell line.plan line.rings.items crew }
    requires seats { splits_of crew.seat ≡ 0 }
    requires none { claims_of [] (root_in line.group).history ≡ [] }
    requires began { IsBeginning (root_in line.group) began }
    ensures grown { HasGrown (root_in line.entry.group) result.0 }
    ensures none { claims_of [] result.0.history ≡ [] }
    ensures lived { IfOk result.1 (λ lived. HasLived line.entry.plan (root_in line.entry.group) lived result.0) }
    ensures stopped { OnErr result.1 (LineHasStopped line.entry.plan (root_in line.entry.group) result.0) }
{
    let appliers = Workers {
        rt: workers.rt,
        alloc: workers.alloc,
        gate: workers.gate,
        count: line.plan.workers,
    };
    let (crew, told) = run_to_end(workers.rt, &line, crew);
    let (mut group, passes) = close(line, crew);
    let Ok(end) = told else {
        return (group, Err(NoMemory));
    };
    let Ok(_) = apply_all(&appliers, &mut group) else {
        return (group, Err(NoMemory));
    };
    let totals = began.totals(&group);
    let lived = Lived {
        end,
        totals,
        passes,
    };
    (group, Ok(lived))
}
