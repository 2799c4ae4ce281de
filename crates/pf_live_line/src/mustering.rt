//! The workers of a run.
ghost use Rattle.std.specs.Prelude.{◌≡◌, ◌+◌, ◌<◌, ◌≤◌, ◌^◌, [], vec_capacity, vec_len};
ghost use Rattle.pf_live_seats.specs.pf_shared.specs.Seats.{IsFirst, IsSeatOf, gone_of, out_of, seen_by, splits_of};
ghost use Rattle.pf_live_line.specs.Crews.{IsCrew};
ghost use Rattle.pf_live_line.specs.Mustered.{AreHosts, AreMustered};

use crate::crew::Crew;
use crate::worker::Worker;
use pf_disk::Disk;
use pf_live_seats::pf_shared::GroupSeat;
use pf_live_seats::{Applier, HostSeat, LiveLine, Submitter, Switch};
use std::collections::VecDeque;
use std::snapshot::Snapshot;

/// The hosts join the workers of a run.
fn muster_hosts<D: Disk + Drop, G>(
    line: &LiveLine<D, G>,
    _begun: &Snapshot<GroupSeat<D>>,
    hosts: Vec<HostSeat>,
    mut workers: Vec<Worker<D>>,
) -> Vec<Worker<D>>
    requires workers { AreMustered line.now.group line.now.cell line.now.plan line.now.rings.items _begun.now.value 0 (splits_of _begun.now.value + 3)
        workers.items }
    requires hosts { AreHosts line.now.plan line.now.rings.items line.now.plan.hosts 0 hosts.items }
    requires room { vec_len workers + line.now.plan.hosts ≤ vec_capacity workers }
    ensures workers { AreMustered line.now.group line.now.cell line.now.plan line.now.rings.items _begun.now.value line.now.plan.hosts
        (splits_of _begun.now.value + 3) result.items }
    ensures room { (vec_len result ≡ vec_len workers + line.now.plan.hosts) × (vec_capacity result ≡ vec_capacity workers) }
{
    let mut rest = VecDeque::from_vec(hosts);
    while let Some(host) = rest.pop_front() {
        workers.push_reserved(Worker::Host(host));
    }
    rest.destroy_empty();
    workers
}

/// A seat for each worker that applies.
fn muster_appliers<D: Disk + Drop, G>(
    line: &LiveLine<D, G>,
    _begun: &Snapshot<GroupSeat<D>>,
    first: &mut GroupSeat<D>,
    mut workers: Vec<Worker<D>>,
) -> Vec<Worker<D>>
    requires workers { AreMustered line.now.group line.now.cell line.now.plan line.now.rings.items _begun.now.value line.now.plan.hosts
        (splits_of _begun.now.value + 3) workers.items }
    requires seat { IsSeatOf line.now.group first.old × IsFirst first.old }
    requires splits { splits_of first.old ≡ splits_of _begun.now.value + 2 }
    requires few { splits_of first.old + line.now.plan.workers < 2 ^ 32 }
    requires room { vec_len workers + line.now.plan.workers ≤ vec_capacity workers }
    ensures workers { AreMustered line.now.group line.now.cell line.now.plan line.now.rings.items _begun.now.value line.now.plan.hosts
        (splits_of _begun.now.value + 3 + line.now.plan.workers) result.items }
    ensures seat { IsSeatOf line.now.group first.new × IsFirst first.new }
    ensures counts { (splits_of first.new ≡ splits_of first.old + line.now.plan.workers) × (out_of first.new ≡ out_of first.old + line.now.plan.workers)
        × (gone_of first.new ≡ gone_of first.old) }
    ensures seen { seen_by first.new ≡ seen_by first.old }
{
    for number in 0..line.plan.workers {
        let seat = line.group.split(first);
        workers.push_reserved(Worker::Apply(Applier {
            seat,
            number,
            moves: u64::MAX,
            ended: false,
            wants: false,
        }));
    }
    workers
}

/// The workers of a run: a seat for the one that submits, one for the switch, the hosts, and a seat for each that applies.
pub(crate) fn muster<D: Disk + Drop, G>(
    line: &LiveLine<D, G>,
    begun: &Snapshot<GroupSeat<D>>,
    crew: Crew<D>,
    mut workers: Vec<Worker<D>>,
) -> (GroupSeat<D>, Vec<Worker<D>>)
    requires crew { IsCrew line.now.group line.now.cell line.now.plan line.now.rings.items crew }
    requires begun { begun.now.value ≡ crew.seat }
    requires few { crew.splits + line.now.plan.workers + 2 < 2 ^ 32 }
    requires room { (workers.items ≡ []) × (line.now.plan.hosts + line.now.plan.workers + 2 ≤ vec_capacity workers) }
    ensures workers { AreMustered line.now.group line.now.cell line.now.plan line.now.rings.items begun.now.value line.now.plan.hosts
        (splits_of begun.now.value + 3 + line.now.plan.workers) result.1.items }
    ensures seat { IsSeatOf line.now.group result.0 × IsFirst result.0 }
    ensures counts { (splits_of result.0 ≡ splits_of begun.now.value + 2 + line.now.plan.workers) × (out_of result.0 ≡ 2 + line.now.plan.workers)
        × (gone_of result.0 ≡ gone_of begun.now.value) }
    ensures seen { seen_by result.0 ≡ seen_by begun.now.value }
{
    let Crew {
        seat: mut first,
        splits: _,
        hosts,
        served,
        first: pass,
        leaders,
        next,
        made,
    } = crew;
    let seat = line.group.split(&mut first);
    workers.push_reserved(Worker::Submit(Submitter {
        begun: Snapshot::of(&seat),
        seat,
        pass: leaders,
        served,
        next: 0,
        ended: false,
        wants: false,
    }));
    let seat = line.group.split(&mut first);
    workers.push_reserved(Worker::Switch(Switch {
        begun: Snapshot::of(&seat),
        seat,
        pass,
        next,
        made,
        moves: u64::MAX,
        began: false,
        ended: false,
        wants: false,
    }));
    let workers = muster_hosts(line, begun, hosts, workers);
    let workers = muster_appliers(line, begun, &mut first, workers);
    (first, workers)
}
