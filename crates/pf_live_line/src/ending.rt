//! A live line runs until it has come to an end.
ghost use Rattle.std.specs.Prelude.{IfOk, IsTrue};
ghost use Rattle.pf_turn.specs.Lists.{Begins};
ghost use Rattle.pf_live_seats.specs.pf_shared.specs.Seats.{root_in, seen_by};
ghost use Rattle.pf_live_seats.specs.Deliveries.{LiveTrace};
ghost use Rattle.pf_live_line.specs.Crews.{IsCrew};
ghost use Rattle.pf_live_line.specs.Judging.{AllSubmitted, IsJudged, IsPublished};
ghost use Rattle.pf_live_line.specs.Rounds.{HasRun, HasRunOn};

use crate::crew::Crew;
use crate::running::run;
use pf_base::{LiveEnd, NoMemory};
use pf_disk::Disk;
use pf_group_copy::Gate;
use pf_live_seats::LiveLine;
use std::sync::Wait;
use std::thread::Threads;

/// One run of the threads, and the end that the line has come to by it, if it has. `NoMemory` (1) where memory ran out, for the run, in it
/// or after it, or where its seats would be too many.
fn round<R: Threads + Wait + Sync, D: Disk + Drop + Send, G: Gate + Sync>(
    rt: &R,
    line: &LiveLine<D, G>,
    crew: Crew<D>,
) -> (Crew<D>, Result<Option<LiveEnd>, NoMemory>)
    requires { IsCrew line.now.group line.now.cell line.now.plan line.now.rings.items crew }
    ensures crew { IsCrew line.now.group line.now.cell line.now.plan line.now.rings.items result.0 }
    ensures begins { Begins (seen_by crew.seat) (seen_by result.0.seat) }
    ensures ran { IfOk result.1 (λ told. HasRunOn line.now.group line.now.cell line.now.plan line.now.rings.items crew 1 result.0) }
    ensures end { IfOk result.1 (λ told. IsTrue (root_in line.now.group).told
        → (ran : LiveTrace) × Begins (seen_by crew.seat) ran × IsJudged line.now.plan (root_in line.now.group) ran (seen_by result.0.seat) told) }
    ensures published { IfOk result.1 (λ told. IsPublished (root_in line.now.group) (seen_by result.0.seat) result.0.first) }
    ensures submitted { IfOk result.1 (λ told. AllSubmitted line.now.plan (root_in line.now.group) (seen_by result.0.seat) result.0.served.items) }
{
    let (mut crew, wants) = run(rt, line, crew);
    if wants {
        return (crew, Err(NoMemory));
    }
    let told = crew.judge(rt, line);
    (crew, told)
}

/// Runs the threads, once and again, until the line has come to an end, which is told. `NoMemory` (1) where memory ran out, for a run, in it
/// or after it, or where its seats would be too many; the line goes on from where it is if it is run again.
pub fn run_to_end<R: Threads + Wait + Sync, D: Disk + Drop + Send, G: Gate + Sync>(
    rt: &R,
    line: &LiveLine<D, G>,
    crew: Crew<D>,
) -> (Crew<D>, Result<LiveEnd, NoMemory>)
    requires { IsCrew line.now.group line.now.cell line.now.plan line.now.rings.items crew }
    ensures crew { IsCrew line.now.group line.now.cell line.now.plan line.now.rings.items result.0 }
    ensures begins { Begins (seen_by crew.seat) (seen_by result.0.seat) }
    ensures run { IfOk result.1 (HasRun line.now.group line.now.cell line.now.plan line.now.rings.items crew result.0) }
{
    let mut now = crew;
    // After each run that is followed by another one the line could go on.
    for _ in rt.forever() {
        let (next, told) = round(rt, line, now);
        now = next;
        match told {
            Ok(None) => {}
            Ok(Some(end)) => return (now, Ok(end)),
            Err(NoMemory) => return (now, Err(NoMemory)),
        }
    }
    unreachable!()
}
