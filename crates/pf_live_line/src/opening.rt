//! A live line is opened over a group, and closed.
ghost use Rattle.std.specs.Prelude.{◌≡◌, [], IfErr, IfOk};
ghost use Rattle.pf_entry.specs.Lists.{Every};
ghost use Rattle.pf_protocol.specs.Answers.{claims_of};
ghost use Rattle.pf_live_seats.specs.pf_group.specs.Roots.{root_of};
ghost use Rattle.pf_live_seats.specs.pf_group_rounds.specs.Growing.{HasGrown};
ghost use Rattle.pf_live_seats.specs.pf_shared.specs.Moments.{handed_out};
ghost use Rattle.pf_live_seats.specs.pf_shared.specs.Seats.{root_in, seen_by, splits_of};
ghost use Rattle.pf_live_seats.specs.pf_shared.specs.Since.{whole_history};
ghost use Rattle.pf_leadercell.specs.Passes as cells;
ghost use Rattle.pf_live_line.specs.Crews.{IsCrew};
ghost use Rattle.pf_live_line.specs.Meeting.{AreMet};
ghost use Rattle.pf_live_line.specs.Opening.{ServedIsNew};

use crate::crew::Crew;
use pf_base::NoMemory;
use pf_disk::Disk;
use pf_leadercell::{LeaderCell, LeaderPass};
use pf_live_crew::Bell;
use pf_live_seats::pf_group::Group;
use pf_live_seats::pf_shared::SharedGroup;
use pf_live_seats::{Bells, HostRings, HostSeat, LinePlan, LiveLine, Served, Standing};
use pf_rings::Ring;
use std::alloc::Global;
use std::sync::atomic::{AtomicBool, AtomicU64};

/// Two rings for each host, and their passes.
#[derive(Drop)]
struct Rings {
    rings: Vec<HostRings>,
    hosts: Vec<HostSeat>,
    served: Vec<Served>,
}

/// The rings and the leader cell of a line, with their passes.
pub struct Passes {
    pub rings: Vec<HostRings>,
    pub hosts: Vec<HostSeat>,
    pub served: Vec<Served>,
    pub cell: LeaderCell,
    /// The cell's first pass.
    pub first: LeaderPass,
}

// Written out, so that what it drops is no function of each crate above.
impl Drop for Passes {
    fn drop(self) {
        let Passes {
            rings: _,
            hosts: _,
            served: _,
            cell: _,
            first: _,
        } = self;
    }
}

impl Rings {
    /// Empty rings. `NoMemory` (1) where memory runs out.
    fn new(alloc: Global, plan: &LinePlan) -> Result<Rings, NoMemory>
        ensures met { IfOk result (λ made. AreMet plan.now made.rings.items plan.now.hosts 0 made.hosts.items made.served.items) }
        ensures new { IfOk result (λ made. Every ServedIsNew made.served.items) }
    {
        let count = plan.hosts as usize;
        let mut made = Rings {
            rings: Vec::with_capacity(alloc, count)?,
            hosts: Vec::with_capacity(alloc, count)?,
            served: Vec::with_capacity(alloc, count)?,
        };
        for host in 0..plan.hosts {
            let (requests, asks, serves) = Ring::new(alloc, host)?;
            let (answers, tells, hears) = Ring::new(alloc, host)?;
            let bell = Bell::new();
            made.rings.push_reserved(HostRings {
                requests,
                answers,
                bell,
            });
            made.hosts.push_reserved(HostSeat {
                pass: asks,
                answers: hears,
                host,
                next: 0,
                acked: 0,
            });
            made.served.push_reserved(Served {
                pass: serves,
                answers: tells,
                taken: 0,
                standing: Standing::Settled,
                moves: u64::MAX,
            });
        }
        Ok(made)
    }
}

/// Opens a line over a group in whose history no claim is open, over any disks. Its list is empty. Where memory runs
/// out (`NoMemory`, 1) the group comes back as it was.
pub fn open<D: Disk + Drop, G: Drop>(
    alloc: Global,
    group: Group<D>,
    plan: LinePlan,
    gate: G,
) -> Result<(LiveLine<D, G>, Crew<D>), (Group<D>, NoMemory)>
    requires none { claims_of [] group.history ≡ [] }
    ensures crew { IfOk result (λ made. IsCrew made.0.group made.0.cell made.0.plan made.0.rings.items made.1) }
    ensures list { IfOk result (λ made. (seen_by made.1.seat ≡ []) × (splits_of made.1.seat ≡ 0)) }
    ensures root { IfOk result (λ made. (root_in made.0.group ≡ group) × (made.0.plan ≡ plan)) }
    ensures back { IfErr result (λ back. back.0 ≡ group) }
{
    let Ok((cell, mut first)) = LeaderCell::new(alloc) else {
        return Err((group, NoMemory));
    };
    let leaders = cell.split(&mut first);
    let Ok(made) = Rings::new(alloc, &plan) else {
        return Err((group, NoMemory));
    };
    let Rings {
        rings,
        hosts,
        served,
    } = made;
    let (group, seat) = SharedGroup::new(alloc, group)?;
    let line = LiveLine {
        group,
        gate,
        alloc,
        cell,
        plan,
        rings,
        bells: Bells::new(),
        moves: AtomicU64::new(0),
        calm: AtomicU64::new(u64::MAX),
        stops: AtomicBool::new(false),
    };
    let crew = Crew {
        seat,
        splits: 0,
        hosts,
        served,
        first,
        leaders,
        next: 0,
        made: 0,
    };
    Ok((line, crew))
}

/// The group, with all that happened to it in the line, and the passes of its rings and its leader cell.
pub fn close<D: Disk + Drop, G: Drop>(line: LiveLine<D, G>, crew: Crew<D>) -> (Group<D>, Passes)
    requires { IsCrew line.group line.cell line.plan line.rings.items crew }
    ensures root { root_of result.0 ≡ root_of (root_in line.group) }
    ensures history { result.0.history ≡ whole_history (root_in line.group) (seen_by crew.seat) }
    ensures none { claims_of [] (root_in line.group).history ≡ [] → claims_of [] result.0.history ≡ [] }
    ensures taken { result.0.taken ≡ handed_out (root_in line.group).taken (seen_by crew.seat) }
    ensures grown { HasGrown (root_in line.group) result.0 }
    ensures met { AreMet line.plan result.1.rings.items line.plan.hosts 0 result.1.hosts.items result.1.served.items }
    ensures served { result.1.served ≡ crew.served }
    ensures first { cells.IsPassOf result.1.cell result.1.first × cells.IsFirstPass result.1.first × (result.1.first ≡ crew.first) }
{
    let LiveLine {
        group,
        gate: _,
        alloc: _,
        cell,
        plan: _,
        rings,
        bells: _,
        moves: _,
        calm: _,
        stops: _,
    } = line;
    let Crew {
        seat,
        hosts,
        served,
        first,
        ..
    } = crew;
    let group = group.close(seat);
    let passes = Passes {
        rings,
        hosts,
        served,
        cell,
        first,
    };
    (group, passes)
}
