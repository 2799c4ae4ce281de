//! A server of a new group, in memory.
ghost use Rattle.std.specs.Prelude.{◌≡◌, IfOk, replicate};
ghost use Rattle.std.specs.FinMap as map;
ghost use Rattle.pf_entry.specs.Sets as set;
ghost use Rattle.pf_server_memory.specs.Standing.{IsRoleKept, role_in_memory};
ghost use Rattle.pf_server_restart.specs.Beginning.{IsSeat, setup_of_seat};
ghost use Rattle.pf_server_restart.specs.declared.seat.Seat.{Seat as SeatIs};
ghost use Rattle.pf_server_format.specs.Opening.{first_body, opening_role};
ghost use Rattle.pf_server_format.specs.Rooms.{MemoryIsFresh};

use pf_base::{NoMemory, ServerId};
use pf_election::Probes;
use pf_holes::{HoleLog, SlotSet};
use pf_server_memory::{Idle, Leader, Replies, Role, Running, spell_state};
use pf_server_restart::Seat;
use pf_server_tables::{Acks, Known, SectorTable, StartTable};
use std::alloc::Global;

/// The first term of a group.
const FIRST_TERM: u64 = 1;

/// The first slot of a group.
const FIRST_SLOT: u64 = 1;

/// Server 0 serves from the first slot on, and the others follow.
fn opening_role(alloc: Global, number: ServerId) -> Role
    ensures role { role_in_memory result ≡ opening_role number }
    ensures kept { IsRoleKept number result }
{
    if number != 0 {
        return Role::Follower;
    }
    Role::Serving(Leader {
        first: FIRST_SLOT,
        next: FIRST_SLOT,
        acks: Acks::new(alloc, 0),
        known: Known::nothing(),
        settled: 0,
    })
}

/// What a server of a new group has in memory. `NoMemory` (1) where there is none for it.
pub fn fresh(alloc: Global, seat: &Seat) -> Result<Running, NoMemory>
    requires { IsSeat seat.now }
    ensures { IfOk result (MemoryIsFresh seat.now) }
{
    let log = HoleLog::new(alloc)?;
    let sectors = SectorTable::open(alloc, seat.sectors)?;
    let idle = Idle::new(alloc)?;
    Ok(first_life(alloc, seat, log, sectors, idle))
}

/// The first life of a server of a new group, over tables for which there was memory.
fn first_life(alloc: Global, seat: &Seat, log: HoleLog, sectors: SectorTable, idle: Idle) -> Running
    requires seat { IsSeat seat.now }
    requires log { log ≡ record { base = 0; entries = map.empty; committed = set.empty } }
    requires sectors { sectors ≡ replicate seat.now.sectors (replicate 512 0) }
    requires in_hand { idle.in_hand ≡ map.empty }
    requires rooms { idle.rooms ≡ map.empty }
    requires snapshots { idle.snapshots ≡ map.empty }
    ensures { MemoryIsFresh seat.now result }
{
    Running {
        number: seat.number,
        life: 0,
        names: seat.names,
        format: seat.format,
        term: FIRST_TERM,
        generation: 0,
        starts: StartTable::new(alloc),
        log,
        role: opening_role(alloc, seat.number),
        applied: SlotSet::new(alloc),
        sectors,
        in_hand: idle.in_hand,
        jobs: 0,
        rooms: idle.rooms,
        reads: Probes::new(alloc),
        replies: Replies::new(alloc),
        snapshots: idle.snapshots,
    }
}

/// The body of the image with which the records of a server of a new group begin: that of each server of the group, whatever
/// the number of the seat. `NoMemory` (1) where there is none for it.
pub fn first_record(alloc: Global, seat: &Seat) -> Result<Vec<u8>, NoMemory>
    requires { IsSeat seat.now }
    ensures { IfOk result (λ body. body.items ≡ first_body (setup_of_seat seat.now)) }
{
    let me = fresh(alloc, seat)?;
    spell_first(alloc, seat, &me)
}

/// The body of the first record, of a server that is as new in memory.
fn spell_first(alloc: Global, seat: &Seat, me: &Running) -> Result<Vec<u8>, NoMemory>
    requires seat { IsSeat seat.now }
    requires fresh { MemoryIsFresh seat.now me.now }
    ensures { IfOk result (λ body. body.items ≡ first_body (setup_of_seat seat.now)) }
{
    spell_state(alloc, me, me.generation)
}
