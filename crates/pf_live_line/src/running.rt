//! One run of the threads.
ghost use Rattle.std.specs.Prelude.{◌≡◌, ◌+◌, ◌<◌, ◌≤◌, [], IfOk, false, vec_capacity};
ghost use Rattle.pf_live_crew.specs.Places.{Each, Pairs};
ghost use Rattle.pf_turn.specs.Lists.{Begins};
ghost use Rattle.pf_live_seats.specs.pf_shared.specs.Seats.{IsFirst, IsSeatOf, gone_of, out_of, seen_by, splits_of};
ghost use Rattle.pf_live_line.specs.Crews.{AllEnded, IsCrew, IsLineSeat};
ghost use Rattle.pf_live_line.specs.Mustered.{AreMustered};
ghost use Rattle.pf_live_line.specs.Working.{IsSameWorker, IsWorker};

use crate::crew::Crew;
use crate::meeting::meet_all;
use crate::mustering::muster;
use crate::taking::{pop_two, take_back, take_two};
use crate::worker::{Worker, run_workers};
use pf_base::NoMemory;
use pf_disk::Disk;
use pf_group_copy::Gate;
use pf_live_seats::pf_shared::GroupSeat;
use pf_live_seats::{HostSeat, LinePlan, LiveLine, Served};
use std::alloc::Global;
use std::collections::VecDeque;
use std::snapshot::Snapshot;
use std::sync::Wait;
use std::thread::Threads;

/// So many seats come from one first seat at most.
const SEATS: u64 = 1 << 32;

/// Room for a run's workers, and for the hosts as they come back.
#[derive(Drop)]
struct Room<D: Disk> {
    workers: Vec<Worker<D>>,
    back: Vec<HostSeat>,
    hosts: Vec<HostSeat>,
    served: Vec<Served>,
}

impl<D: Disk + Drop> Room<D> {
    /// Room for the workers of a plan. `NoMemory` (1) where memory runs out.
    fn new(alloc: Global, plan: &LinePlan) -> Result<Room<D>, NoMemory>
        ensures workers { IfOk result (λ room. (room.workers.items ≡ []) × (plan.now.hosts + plan.now.workers + 2 ≤ vec_capacity room.workers)) }
        ensures back { IfOk result (λ room. (room.back.items ≡ []) × (plan.now.hosts ≤ vec_capacity room.back)) }
        ensures hosts { IfOk result (λ room. (room.hosts.items ≡ []) × (plan.now.hosts ≤ vec_capacity room.hosts)) }
        ensures served { IfOk result (λ room. (room.served.items ≡ []) × (plan.now.hosts ≤ vec_capacity room.served)) }
    {
        let hosts = plan.hosts as usize;
        Ok(Room {
            workers: Vec::with_capacity(alloc, hosts + plan.workers as usize + 2)?,
            back: Vec::with_capacity(alloc, hosts)?,
            hosts: Vec::with_capacity(alloc, hosts)?,
            served: Vec::with_capacity(alloc, hosts)?,
        })
    }
}

/// The workers of a run are done: their seats are taken in, and the passes of each ring meet. Whether memory ran out in one of them.
fn regroup<R: Wait, D: Disk + Drop, G: Gate>(
    rt: &R,
    line: &LiveLine<D, G>,
    begun: &Snapshot<GroupSeat<D>>,
    splits: u64,
    mut first: GroupSeat<D>,
    workers: Vec<Worker<D>>,
    room: (Vec<HostSeat>, Vec<HostSeat>, Vec<Served>),
) -> (Crew<D>, bool)
    requires begun { IsLineSeat line.now.group line.now.plan begun.now.value }
    requires workers { AreMustered line.now.group line.now.cell line.now.plan line.now.rings.items begun.now.value line.now.plan.hosts
        (splits_of begun.now.value + 3 + line.now.plan.workers) workers.items }
    requires seat { IsSeatOf line.now.group first × IsFirst first }
    requires counts { (splits_of first ≡ splits_of begun.now.value + 2 + line.now.plan.workers) × (out_of first ≡ 2 + line.now.plan.workers)
        × (gone_of first ≡ gone_of begun.now.value) }
    requires seen { seen_by first ≡ seen_by begun.now.value }
    requires splits { splits ≡ splits_of first }
    requires back { (room.0.items ≡ []) × (line.now.plan.hosts ≤ vec_capacity room.0) }
    requires hosts { (room.1.items ≡ []) × (line.now.plan.hosts ≤ vec_capacity room.1) }
    requires served { (room.2.items ≡ []) × (line.now.plan.hosts ≤ vec_capacity room.2) }
    ensures crew { IsCrew line.now.group line.now.cell line.now.plan line.now.rings.items result.0 }
    ensures begins { Begins (seen_by begun.now.value) (seen_by result.0.seat) }
    ensures seats { splits_of result.0.seat ≡ splits_of begun.now.value + line.now.plan.workers + 2 }
    ensures ended { result.1 ≡ false → AllEnded line.now.plan begun.now.value → AllEnded line.now.plan result.0.seat }
{
    let mut workers = VecDeque::from_vec(workers);
    let (submitter, switch) = pop_two(line, begun, &mut workers);
    let taken = take_two(line, begun, &mut first, submitter, switch);
    let (back, hosts, served) = room;
    let (back, wants) = take_back(rt, line, begun, &taken.submitted, &mut first, workers, back);
    let wants = wants | taken.wants;
    let (hosts, served) = meet_all(line, back, taken.served, hosts, served);
    (
        Crew {
            seat: first,
            splits,
            hosts,
            served,
            first: taken.first,
            leaders: taken.leaders,
            next: taken.next,
            made: taken.made,
        },
        wants,
    )
}

/// Runs the workers, and tells whether there was no memory for it: then they took no turn.
fn run_or_keep<R: Threads + Wait + Sync, D: Disk + Drop + Send, G: Gate + Sync>(
    rt: &R,
    line: &LiveLine<D, G>,
    workers: Vec<Worker<D>>,
) -> (Vec<Worker<D>>, bool)
    requires { Each (IsWorker line.now.group line.now.cell line.now.plan line.now.rings.items) workers.items }
    ensures { Pairs (λ x y. IsWorker line.now.group line.now.cell line.now.plan line.now.rings.items y × IsSameWorker x y) workers.items result.0.items }
{
    match run_workers(rt, line, workers) {
        Ok(workers) => (workers, false),
        Err((workers, NoMemory)) => {
            // Nobody took a turn, so nobody else tells those that apply to end.
            line.stop();
            (workers, true)
        }
    }
}

/// One run of the threads, each worker in a thread of its own where one can be started and else here, until all have ended. The list goes
/// on as that of a line. Whether memory ran out, for the run or in it, or its seats would be too many.
pub fn run<R: Threads + Wait + Sync, D: Disk + Drop + Send, G: Gate + Sync>(
    rt: &R,
    line: &LiveLine<D, G>,
    crew: Crew<D>,
) -> (Crew<D>, bool)
    requires { IsCrew line.now.group line.now.cell line.now.plan line.now.rings.items crew }
    ensures crew { IsCrew line.now.group line.now.cell line.now.plan line.now.rings.items result.0 }
    ensures begins { Begins (seen_by crew.seat) (seen_by result.0.seat) }
    ensures seats { result.1 ≡ false → splits_of result.0.seat ≡ splits_of crew.seat + line.now.plan.workers + 2 }
    ensures ended { result.1 ≡ false → AllEnded line.now.plan crew.seat → AllEnded line.now.plan result.0.seat }
{
    let count = u64::from(line.plan.workers) + 2;
    if crew.splits >= SEATS || count >= SEATS - crew.splits {
        return (crew, true);
    }
    let Ok(room) = Room::new(line.alloc, &line.plan) else {
        return (crew, true);
    };
    let Room {
        workers,
        back,
        hosts,
        served,
    } = room;
    let splits = crew.splits + count;
    let begun = Snapshot::of(&crew.seat);
    let (first, workers) = muster(line, &begun, crew, workers);
    line.begin();
    let (workers, wanted) = run_or_keep(rt, line, workers);
    let (crew, wants) = regroup(
        rt,
        line,
        &begun,
        splits,
        first,
        workers,
        (back, hosts, served),
    );
    (crew, wants | wanted)
}
