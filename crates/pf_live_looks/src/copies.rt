//! Copies of what a group shows, which is of its state where its disks tell their content. Where there is no memory for one
//! (`NoMemory`, 1), nothing is told.
ghost use Rattle.std.specs.Prelude.{◌≡◌, ◌<◌, IfOk, IsTrue, map, slice_get};
ghost use Rattle.std.specs.FinMap as finite;
ghost use Rattle.pf_entry.specs.Sets as set;
ghost use Rattle.pf_shared.specs.pf_group_network.specs.Showing.{acked_entry};
ghost use Rattle.pf_shared.specs.pf_group.specs.GroupIs.{state_of};
ghost use Rattle.pf_shared.specs.pf_group.specs.Readers.{IsAppliedOf, ServerTells, snapshot_in};

use pf_base::{NoMemory, Sectors, ServerId, Slot, Term};
use pf_disk::Disk;
use pf_entry::Entry;
use pf_holes::SlotSet;
use pf_shared::pf_group::{Down, Group};
use pf_shared::pf_group_rounds::pf_group_network::Acked;
use std::alloc::Global;

/// The slots that were acknowledged to hosts, in order.
pub(crate) fn acked<D: Disk>(alloc: Global, group: &Group<D>) -> Result<Vec<Acked>, NoMemory>
    ensures { IfOk result (λ acked. IsTrue group.now.told → acked.items ≡ map acked_entry (state_of group.now).acked) }
{
    Ok(Vec::from_slice(alloc, group.acked())?)
}

/// The checkpoint of the server.
pub(crate) fn base_of<D: Disk>(group: &Group<D>, server: ServerId) -> Result<Slot, Down>
    requires { server < 3 }
    ensures { IsTrue group.now.told → ServerTells (state_of group.now) server result (λ base s. base ≡ s.durable.base) }
{
    Ok(group.running(server)?.log.base())
}

/// Whether the server knows the slot to be committed.
pub(crate) fn is_committed_of<D: Disk>(
    group: &Group<D>,
    server: ServerId,
    slot: Slot,
) -> Result<bool, Down>
    requires { server < 3 }
    ensures { IsTrue group.now.told → ServerTells (state_of group.now) server result (λ is s. is ≡ set.contains s.committed slot) }
{
    Ok(group.running(server)?.log.is_committed(slot))
}

/// The entry in the server's log.
pub(crate) fn entry_of<D: Disk>(
    alloc: Global,
    group: &Group<D>,
    server: ServerId,
    slot: Slot,
) -> Result<Result<Option<Entry>, Down>, NoMemory>
    requires { server < 3 }
    ensures { IfOk result (λ told. IsTrue group.now.told → ServerTells (state_of group.now) server told (λ entry s. entry ≡ finite.get s.durable.log slot)) }
{
    match group.running(server) {
        Ok(me) => match me.log.get(slot) {
            Some(entry) => Ok(Ok(Some(entry.try_clone(alloc)?))),
            None => Ok(Ok(None)),
        },
        Err(down) => Ok(Err(down)),
    }
}

/// The slots that the server has applied.
pub(crate) fn applied_of<D: Disk>(
    alloc: Global,
    group: &Group<D>,
    server: ServerId,
) -> Result<Result<SlotSet, Down>, NoMemory>
    requires { server < 3 }
    ensures { IfOk result (λ told. IsTrue group.now.told → ServerTells (state_of group.now) server told (λ slots s. IsAppliedOf slots.slots s)) }
{
    match group.running(server) {
        Ok(me) => Ok(Ok(me.applied.try_clone(alloc)?)),
        Err(down) => Ok(Err(down)),
    }
}

/// The sectors of the server's chunk.
pub(crate) fn sectors_of<D: Disk>(
    alloc: Global,
    group: &Group<D>,
    server: ServerId,
) -> Result<Result<Sectors, Down>, NoMemory>
    requires { server < 3 }
    ensures { IfOk result (λ told. IsTrue group.now.told → ServerTells (state_of group.now) server told (λ sectors s. sectors ≡ s.sectors)) }
{
    match group.running(server) {
        Ok(me) => Ok(Ok(me.sectors.copied(alloc)?)),
        Err(down) => Ok(Err(down)),
    }
}

/// The sectors at a mark that the server keeps.
pub(crate) fn snapshot<D: Disk>(
    alloc: Global,
    group: &Group<D>,
    server: ServerId,
    slot: Slot,
) -> Result<Option<Sectors>, NoMemory>
    requires { server < 3 }
    ensures { IfOk result (λ sectors. IsTrue group.now.told → sectors ≡ snapshot_in (slice_get (state_of group.now).servers server) slot) }
{
    match group.running(server) {
        Ok(me) => match me.snapshots.get(slot) {
            Some(sectors) => Ok(Some(sectors.copied(alloc)?)),
            None => Ok(None),
        },
        Err(_) => Ok(None),
    }
}
