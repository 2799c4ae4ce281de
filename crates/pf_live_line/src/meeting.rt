//! The two passes of each ring meet.
ghost use Rattle.std.specs.Prelude.{◌≡◌, ◌≤◌, [], vec_capacity};
ghost use Rattle.pf_live_crew.specs.Places.{Pairs};
ghost use Rattle.pf_live_seats.specs.Submitters.{IsServedIn};
ghost use Rattle.pf_live_seats.specs.Writes.{IsHostIn};
ghost use Rattle.pf_live_line.specs.Meeting.{AreMet, IsMet, IsSameServed};
ghost use Rattle.pf_live_line.specs.Mustered.{AreHosts, HostsAreServed};

use pf_disk::Disk;
use pf_live_seats::{HostSeat, LiveLine, Served};
use std::collections::VecDeque;

/// The two passes of each ring of one host meet.
fn meet<D: Disk, G>(line: &LiveLine<D, G>, host: HostSeat, served: Served) -> (HostSeat, Served)
    requires host { IsHostIn line.now.plan line.now.rings.items host }
    requires served { IsServedIn line.now.plan line.now.rings.items host.host served }
    ensures met { IsMet line.now.plan line.now.rings.items host.host result.0 result.1 }
    ensures same { IsSameServed served result.1 }
{
    let Some(rings) = line.rings.get(host.host as usize) else {
        unreachable!()
    };
    let HostSeat {
        pass,
        answers,
        host,
        next,
        acked,
    } = host;
    let Served {
        pass: theirs,
        answers: told,
        taken,
        standing,
        moves,
    } = served;
    let (pass, theirs) = rings.requests.meet(pass, theirs);
    let (told, answers) = rings.answers.meet(told, answers);
    (
        HostSeat {
            pass,
            answers,
            host,
            next,
            acked,
        },
        Served {
            pass: theirs,
            answers: told,
            taken,
            standing,
            moves,
        },
    )
}

/// The two passes of each ring of each host meet.
pub(crate) fn meet_all<D: Disk, G>(
    line: &LiveLine<D, G>,
    hosts: Vec<HostSeat>,
    served: Vec<Served>,
    mut host_room: Vec<HostSeat>,
    mut served_room: Vec<Served>,
) -> (Vec<HostSeat>, Vec<Served>)
    requires hosts { AreHosts line.now.plan line.now.rings.items line.now.plan.hosts 0 hosts.items }
    requires served { HostsAreServed line.now.plan line.now.rings.items line.now.plan.hosts 0 served.items }
    requires host_room { (host_room.items ≡ []) × (line.now.plan.hosts ≤ vec_capacity host_room) }
    requires served_room { (served_room.items ≡ []) × (line.now.plan.hosts ≤ vec_capacity served_room) }
    ensures met { AreMet line.now.plan line.now.rings.items line.now.plan.hosts 0 result.0.items result.1.items }
    ensures same { Pairs IsSameServed served.items result.1.items }
{
    let mut hosts = VecDeque::from_vec(hosts);
    let mut served = VecDeque::from_vec(served);
    while let Some(host) = hosts.pop_front() {
        let Some(one) = served.pop_front() else {
            unreachable!()
        };
        let (host, one) = meet(line, host, one);
        host_room.push_reserved(host);
        served_room.push_reserved(one);
    }
    hosts.destroy_empty();
    (host_room, served_room)
}
