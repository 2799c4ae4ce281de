//! Any worker of a live line, and their run.
ghost use Rattle.std.specs.Prelude.{◌≡◌, IfErr, IfOk};
ghost use Rattle.pf_live_crew.specs.Places.{Each, Pairs};
ghost use Rattle.pf_live_line.specs.Working.{IsSameWorker, IsWorker};

use pf_base::NoMemory;
use pf_disk::Disk;
use pf_group_copy::Gate;
use pf_live_crew::{Turned, Works, run_all};
use pf_live_seats::{Applier, HostSeat, LiveLine, Submitter, Switch};
use std::sync::Wait;
use std::thread::Threads;

/// A worker of a live line.
#[derive(Drop)]
pub enum Worker<D: Disk> {
    Host(HostSeat),
    Submit(Submitter<D>),
    Switch(Switch<D>),
    Apply(Applier<D>),
}

impl<D: Disk + Drop, G: Gate> Works<LiveLine<D, G>> for Worker<D> {
    ghost use Rattle.pf_live_line.specs.Working.{IsSameWorker, IsWorker, same_worker, worker_on};

    ghost fits = { λ line a. IsWorker line.group line.cell line.plan line.rings.items a };

    ghost goes = { λ line x y. IsSameWorker x y };

    fn turn<R: Wait>(&mut self, rt: &R, context: &LiveLine<D, G>) -> Turned {
        match self {
            Worker::Host(host) => host.work(rt, context),
            Worker::Submit(submitter) => submitter.work(rt, context),
            Worker::Switch(switch) => switch.work(rt, context),
            Worker::Apply(applier) => applier.work(rt, context),
        }
    }

    fn rest<R: Wait>(&self, rt: &R, context: &LiveLine<D, G>, heard: u64) -> u64 {
        match self {
            Worker::Host(host) => host.rest(rt, context, heard),
            Worker::Submit(_) => context.bells.submitter.rest(rt, heard),
            Worker::Switch(_) => context.bells.switch.rest(rt, heard),
            Worker::Apply(_) => context.bells.appliers.rest(rt, heard),
        }
    }

    ghost stays = { λ line x. same_worker x };

    ghost goes_on = { λ line x y z p q. worker_on x y z p q };
}

/// Runs the workers of a line, each in a thread of its own where one can be started and else here, until all have ended. They come back
/// in their order. Where memory runs out (`NoMemory`, 1) before the first turn, they come back as they were.
pub fn run_workers<R: Threads + Wait + Sync, D: Disk + Drop + Send, G: Gate + Sync>(
    rt: &R,
    line: &LiveLine<D, G>,
    workers: Vec<Worker<D>>,
) -> Result<Vec<Worker<D>>, (Vec<Worker<D>>, NoMemory)>
    requires { Each (IsWorker line.now.group line.now.cell line.now.plan line.now.rings.items) workers.items }
    ensures done { IfOk result (λ done. Pairs (λ x y. IsWorker line.now.group line.now.cell line.now.plan line.now.rings.items y × IsSameWorker x y)
        workers.items done.items) }
    ensures back { IfErr result (λ back. back.0 ≡ workers) }
{
    run_all(rt, line.alloc, line, workers)
}
