//! A new life.
ghost use Rattle.std.specs.Prelude.{◌≡◌, ◌<◌, ◌^◌, ℕ, IfErr, IfOk, IsErrOf};
ghost use Rattle.std.specs.FinMap as map;
ghost use Rattle.pf_entry.specs.Records.{Durable};
ghost use Rattle.pf_entry.specs.Sets as set;
ghost use Rattle.pf_server_store.specs.Stores.{RecordsStandFor};
ghost use Rattle.pf_server_restart.specs.Beginning.{ServerHasBegun, IsSeat, MayBegin, setup_of_seat};
ghost use Rattle.pf_server_restart.specs.Faults.{IsHalt};
ghost use Rattle.pf_server_restart.specs.Recovering.{state_in};
ghost use Rattle.pf_server_restart.specs.Reviving.{IsRevived};
ghost use Rattle.pf_server_restart.specs.Testing.{StatePasses};

use crate::fitting::fits;
use crate::recovery::{Recovered, recover};
use crate::{RestartFault, Seat};
use pf_base::NoMemory;
use pf_election::Probes;
use pf_holes::SlotSet;
use pf_server_memory::{Idle, Replies, Role, Running};
use pf_server_store::Found;
use pf_server_tables::SectorTable;
use std::alloc::Global;

/// Begins a life over what was read, as a follower without committed slots, jobs or reads.
fn begin(alloc: Global, seat: &Seat, life: u64, tables: Recovered) -> Result<Running, NoMemory>
    requires seat { IsSeat seat.now }
    requires begun { ServerHasBegun (setup_of_seat seat.now) (state_in tables) }
    requires unmarked { tables.log.committed ≡ set.empty }
    ensures { IfOk result (λ me. IsRevived (state_in tables) me seat.now life) }
{
    let idle = Idle::new(alloc)?;
    Ok(seated(alloc, seat, life, tables, idle))
}

/// The life that begins over what was read, with the tables for which there was memory.
fn seated(alloc: Global, seat: &Seat, life: u64, tables: Recovered, idle: Idle) -> Running
    requires seat { IsSeat seat.now }
    requires begun { ServerHasBegun (setup_of_seat seat.now) (state_in tables) }
    requires unmarked { tables.log.committed ≡ set.empty }
    requires in_hand { idle.in_hand ≡ map.empty }
    requires rooms { idle.rooms ≡ map.empty }
    requires snapshots { idle.snapshots ≡ map.empty }
    ensures { IsRevived (state_in tables) result seat.now life }
{
    let base = tables.log.base();
    Running {
        number: seat.number,
        life,
        names: seat.names,
        format: seat.format,
        term: tables.term,
        generation: tables.generation,
        starts: tables.starts,
        applied: SlotSet::with_prefix(base, tables.applied),
        log: tables.log,
        role: Role::Follower,
        sectors: SectorTable::from_sectors(tables.sectors),
        in_hand: idle.in_hand,
        jobs: 0,
        rooms: idle.rooms,
        reads: Probes::new(alloc),
        replies: Replies::new(alloc),
        snapshots: idle.snapshots,
    }
}

/// Begins a life over the records that were found. `NoMemory` (1) where there is no memory for it, and `NotOurs` (42) where
/// what they give does not fit the seat.
pub fn revive(alloc: Global, seat: &Seat, life: u64, found: Found) -> Result<Running, RestartFault>
    requires seat { IsSeat seat.now }
    requires stands { (d : Durable) × RecordsStandFor found d }
    ensures begun { IfOk result (λ me. (d : Durable) → RecordsStandFor found d → IsRevived d me seat.now life × (d.generation < 2 ^ 63)) }
    ensures ours { IsErrOf result RestartFault.NotOurs → (d : Durable) → RecordsStandFor found d → MayBegin (setup_of_seat seat.now) d → ⊥ }
    ensures unfit { IsErrOf result RestartFault.NotOurs → (d : Durable) → RecordsStandFor found d → StatePasses (setup_of_seat seat.now) d → ⊥ }
    ensures moving { IfErr result (λ fault. IsHalt fault → ⊥) }
{
    let Some(tables) = recover(alloc, found)? else {
        return Err(RestartFault::NotOurs);
    };
    if !fits(alloc, seat, &tables)? {
        return Err(RestartFault::NotOurs);
    }
    Ok(begin(alloc, seat, life, tables)?)
}
