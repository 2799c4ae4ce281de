//! The workers of a run come back.
ghost use Rattle.std.specs.Prelude.{◌≡◌, ℕ, ◌+◌, ◌-◌, ◌<◌, ◌≤◌, ◌||◌, [], None, false, vec_capacity};
ghost use Rattle.pf_turn.specs.Lists.{Begins, entries_of};
ghost use Rattle.pf_live_seats.specs.pf_shared.specs.Hands.{Key, hand_of};
ghost use Rattle.pf_live_seats.specs.pf_shared.specs.Seats.{IsFirst, IsSeatOf, gone_of, number_of, out_of, seen_by, splits_of};
ghost use Rattle.pf_live_seats.specs.Roles.{HasRunOut};
ghost use Rattle.pf_live_seats.specs.Workers.{IsApplier};
ghost use Rattle.pf_live_line.specs.Crews.{IsLineSeat};
ghost use Rattle.pf_live_line.specs.Joining.{IsJoining};
ghost use Rattle.pf_live_line.specs.Mustered.{AreCounted, AreHosts, AreMustered, IsDelivering, IsSubmitting};
ghost use Rattle.pf_live_line.specs.Taking.{IsTaken};

use crate::joining::take_in;
use crate::worker::Worker;
use pf_disk::Disk;
use pf_group_copy::Gate;
use pf_leadercell::LeaderPass;
use pf_live_seats::pf_shared::GroupSeat;
use pf_live_seats::{Applier, HostSeat, LiveLine, Served, Submitter, Switch};
use std::collections::VecDeque;
use std::snapshot::Snapshot;
use std::sync::Wait;

/// What the worker that submits and the switch leave.
#[derive(Drop)]
pub(crate) struct Taken<D: Disk> {
    /// The seat that submitted, as it ended.
    pub(crate) submitted: Snapshot<GroupSeat<D>>,
    pub(crate) served: Vec<Served>,
    pub(crate) leaders: LeaderPass,
    pub(crate) first: LeaderPass,
    pub(crate) next: u32,
    pub(crate) made: u32,
    /// Memory ran out.
    pub(crate) wants: bool,
}

/// The first two workers of a run.
pub(crate) fn pop_two<D: Disk + Drop, G>(
    line: &LiveLine<D, G>,
    _begun: &Snapshot<GroupSeat<D>>,
    workers: &mut VecDeque<Worker<D>>,
) -> (Submitter<D>, Switch<D>)
    requires { AreMustered line.now.group line.now.cell line.now.plan line.now.rings.items _begun.now.value line.now.plan.hosts
        (splits_of _begun.now.value + 3 + line.now.plan.workers) workers.old.items }
    ensures submitter { IsSubmitting line.now.group line.now.cell line.now.plan line.now.rings.items _begun.now.value result.0 }
    ensures switch { IsDelivering line.now.group line.now.cell line.now.plan line.now.rings.items _begun.now.value result.1 }
    ensures rest { AreCounted line.now.group line.now.cell line.now.plan line.now.rings.items line.now.plan.hosts
        (splits_of _begun.now.value + 3 + line.now.plan.workers) 0 (splits_of _begun.now.value + 3) workers.new.items }
{
    let Some(submitter) = workers.pop_front() else {
        unreachable!()
    };
    let Some(switch) = workers.pop_front() else {
        unreachable!()
    };
    match submitter {
        Worker::Submit(submitter) => match switch {
            Worker::Switch(switch) => (submitter, switch),
            _ => unreachable!(),
        },
        _ => unreachable!(),
    }
}

/// Takes in the seat that submitted and that of the switch.
pub(crate) fn take_two<D: Disk + Drop, G>(
    line: &LiveLine<D, G>,
    begun: &Snapshot<GroupSeat<D>>,
    first: &mut GroupSeat<D>,
    submitter: Submitter<D>,
    switch: Switch<D>,
) -> Taken<D>
    requires begun { IsLineSeat line.now.group line.now.plan begun.now.value }
    requires seat { IsSeatOf line.now.group first.old × IsFirst first.old }
    requires counts { (splits_of first.old ≡ splits_of begun.now.value + 2 + line.now.plan.workers) × (out_of first.old ≡ 2 + line.now.plan.workers)
        × (gone_of first.old ≡ gone_of begun.now.value) }
    requires seen { seen_by first.old ≡ seen_by begun.now.value }
    requires submitter { IsSubmitting line.now.group line.now.cell line.now.plan line.now.rings.items begun.now.value submitter }
    requires switch { IsDelivering line.now.group line.now.cell line.now.plan line.now.rings.items begun.now.value switch }
    ensures taken { IsTaken line.now.group line.now.cell line.now.plan line.now.rings.items begun.now.value result first.new }
    ensures others { (n : ℕ) → n ≤ splits_of begun.now.value → entries_of n (seen_by first.new) ≡ entries_of n (seen_by begun.now.value) }
    ensures wants { result.wants ≡ (submitter.wants || switch.wants) }
{
    let Submitter {
        seat,
        begun: _,
        pass: leaders,
        served,
        next: _,
        ended: _,
        wants,
    } = submitter;
    let Switch {
        seat: second,
        begun: _,
        pass,
        next,
        made,
        moves: _,
        began: _,
        ended: _,
        wants: wanted,
    } = switch;
    let submitted = Snapshot::of(&seat);
    take_in(&line.group, &line.plan, begun, &submitted, first, seat);
    take_in(&line.group, &line.plan, begun, &submitted, first, second);
    Taken {
        submitted,
        served,
        leaders,
        first: pass,
        next,
        made,
        wants: wants || wanted,
    }
}

/// Takes in a seat that applied, once it has ended. Whether memory ran out in it.
fn take_applier<R: Wait, D: Disk + Drop, G: Gate>(
    rt: &R,
    line: &LiveLine<D, G>,
    begun: &Snapshot<GroupSeat<D>>,
    submitted: &Snapshot<GroupSeat<D>>,
    first: &mut GroupSeat<D>,
    mut applier: Applier<D>,
) -> bool
    requires applier { IsApplier line.now.group applier }
    requires joining { IsJoining line.now.group line.now.plan begun.now.value submitted.now.value (number_of applier.seat - 1) first.old }
    requires number { (splits_of begun.now.value + 2 < number_of applier.seat)
        × (number_of applier.seat ≤ splits_of begun.now.value + line.now.plan.workers + 2) }
    ensures joining { IsJoining line.now.group line.now.plan begun.now.value submitted.now.value (number_of applier.seat) first.new }
    ensures begins { Begins (seen_by first.old) (seen_by first.new) }
    ensures others { (n : ℕ) → n < number_of applier.seat → entries_of n (seen_by first.new) ≡ entries_of n (seen_by first.old) }
    ensures free { (k : Key) → hand_of k None (entries_of (number_of applier.seat) (seen_by first.new)) ≡ None }
    ensures last { result ≡ false → HasRunOut (number_of applier.seat) (entries_of (number_of applier.seat) (seen_by first.new)) }
{
    applier.end(rt, line);
    let Applier { seat, wants, .. } = applier;
    take_in(&line.group, &line.plan, begun, submitted, first, seat);
    wants
}

/// The hosts of a run, once all seats that applied are taken in, and whether memory ran out in one of these.
pub(crate) fn take_back<R: Wait, D: Disk + Drop, G: Gate>(
    rt: &R,
    line: &LiveLine<D, G>,
    begun: &Snapshot<GroupSeat<D>>,
    submitted: &Snapshot<GroupSeat<D>>,
    first: &mut GroupSeat<D>,
    mut rest: VecDeque<Worker<D>>,
    mut hosts: Vec<HostSeat>,
) -> (Vec<HostSeat>, bool)
    requires rest { AreCounted line.now.group line.now.cell line.now.plan line.now.rings.items line.now.plan.hosts
        (splits_of begun.now.value + 3 + line.now.plan.workers) 0 (splits_of begun.now.value + 3) rest.items }
    requires joining { IsJoining line.now.group line.now.plan begun.now.value submitted.now.value (splits_of begun.now.value + 2) first.old }
    requires room { (hosts.items ≡ []) × (line.now.plan.hosts ≤ vec_capacity hosts) }
    ensures hosts { AreHosts line.now.plan line.now.rings.items line.now.plan.hosts 0 result.0.items }
    ensures joining { IsJoining line.now.group line.now.plan begun.now.value submitted.now.value (splits_of begun.now.value + line.now.plan.workers + 2)
        first.new }
    ensures begins { Begins (seen_by first.old) (seen_by first.new) }
    ensures others { (n : ℕ) → n ≤ splits_of begun.now.value + 2 → entries_of n (seen_by first.new) ≡ entries_of n (seen_by first.old) }
    ensures free { (n : ℕ) → splits_of begun.now.value + 2 < n → n ≤ splits_of begun.now.value + line.now.plan.workers + 2 → (k : Key)
        → hand_of k None (entries_of n (seen_by first.new)) ≡ None }
    ensures lasts { result.1 ≡ false → (n : ℕ) → splits_of begun.now.value + 2 < n → n ≤ splits_of begun.now.value + line.now.plan.workers + 2
        → HasRunOut n (entries_of n (seen_by first.new)) }
{
    let mut wants = false;
    while let Some(worker) = rest.pop_front() {
        match worker {
            Worker::Host(host) => hosts.push_reserved(host),
            Worker::Apply(applier) => {
                wants |= take_applier(rt, line, begun, submitted, first, applier);
            }
            _ => unreachable!(),
        }
    }
    rest.destroy_empty();
    (hosts, wants)
}
