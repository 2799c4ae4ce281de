//! A restart.
ghost use Rattle.std.specs.Prelude.{◌≡◌, ◌⊎◌, ◌≢◌, IfErr, IfOk, IsErrOf, IsTrue, Err};
ghost use Rattle.pf_entry.specs.Records.{Durable};
ghost use Rattle.pf_protocol.specs.Saving.{renewed};
ghost use Rattle.pf_server_store.specs.Stores.{StandsStill};
ghost use Rattle.pf_server_restart.specs.Beginning.{setup_of_seat, ServerHasBegun, IsSeat, MayBegin, IsBegun, StateIsRead, WasBegun};
ghost use Rattle.pf_server_restart.specs.Faults.{IsEarly, IsHalt};
ghost use Rattle.pf_server_restart.specs.Testing.{HasUnfit};
ghost use Rattle.pf_server_restart.specs.declared.reading.HalfReading.{HalfReading as ReadingIs};

use crate::halves::{image_for, renew};
use crate::lives::revive;
use crate::{HalfReading, RestartFault, Seat};
use pf_server_memory::Running;
use pf_server_store::Store;
use std::alloc::Global;

/// Begins a life of a server from the records in its store, as a follower without committed slots, jobs or reads, and tells what
/// it read. A half of the first format is saved anew in the second.
///
/// `NoMemory` (1), `ReadHalted` (52) and `NotOurs` (42) leave the store as it was, whatever its disks tell. `ReadHalted` and
/// `SaveHalted` (52) come only where a disk failed; at `SaveHalted` the store has what was read, perhaps saved anew. `NotOurs` where
/// no half is recoverable or what its records give does not fit the server, which no store that tells its content gives. It takes
/// a step for each record and for each slot of the window.
pub fn restart<S: Store>(
    alloc: Global,
    store: &mut S,
    seat: &Seat,
    life: u64,
) -> Result<(Running, HalfReading), RestartFault>
    requires seat { IsSeat seat.now }
    ensures begun { IfOk result (λ r. (d : Durable) × IsBegun S.model d store.new r.0 seat.now life) }
    ensures found { IsTrue (S.model.told store.old) → IfOk result (λ r. (before after : Durable) → S.model.holds store.old before after
        → (d : Durable) × ((d ≡ before) ⊎ (d ≡ after)) × StateIsRead r.1 d × IsBegun S.model (renewed d) store.new r.0 seat.now life) }
    ensures unsaved { (reading : ReadingIs) → IsErrOf result (RestartFault.SaveHalted reading) → IsTrue (S.model.told store.old) → (before after : Durable)
        → S.model.holds store.old before after → (d : Durable) × ((d ≡ before) ⊎ (d ≡ after)) × StateIsRead reading d × S.model.holds store.new d (renewed d) }
    // Whatever was read, where the disks tell nothing: it fits the server, and was saved anew or not.
    ensures unsaved_any { (reading : ReadingIs) → IsErrOf result (RestartFault.SaveHalted reading)
        → (d : Durable) × ServerHasBegun (setup_of_seat seat.now) d × S.model.holds store.new d (renewed d) }
    // Whatever the disks tell, the store stands where it stood.
    ensures still { IfErr result (λ fault. IsEarly fault → StandsStill S.model store.old store.new) }
    ensures ours { IsTrue (S.model.told store.old) → (before after : Durable) → S.model.holds store.old before after → MayBegin (setup_of_seat seat.now) before
        → MayBegin (setup_of_seat seat.now) after → result ≢ Err RestartFault.NotOurs }
    // Only where the state that is there does not pass the tests.
    ensures unfit { IsErrOf result RestartFault.NotOurs → IsTrue (S.model.told store.old) → (before after : Durable) → S.model.holds store.old before after
        → HasUnfit S.model (setup_of_seat seat.now) before after (S.model.resumed store.new) }
    ensures any_moment { IsTrue (S.model.told store.old) → (before after : Durable) → S.model.holds store.old before after
        → WasBegun S.model.was before after store.old store.new }
    ensures told { S.model.told store.new ≡ S.model.told store.old }
    ensures cause { IfErr result (λ fault. IsHalt fault → S.model.rose store.old store.new) }
{
    let found = store.find(alloc)?;
    let format = found.format;
    let used = found.used;
    let mut me = revive(alloc, seat, life, found)?;
    let image = image_for(alloc, &me, format)?;
    store.resume();
    let read = HalfReading {
        used,
        generation: me.generation,
    };
    renew(store, &mut me, image, read)?;
    Ok((me, read))
}
