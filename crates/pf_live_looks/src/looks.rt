//! What a shared group shows, each in one turn.
ghost use Rattle.std.specs.Prelude.{◌≡◌, ◌<◌, ◌≤◌, IfOk, IsTrue, OnErr, length, map, slice_get};
ghost use Rattle.std.specs.FinMap as finite;
ghost use Rattle.pf_entry.specs.Sets as set;
ghost use Rattle.pf_shared.specs.pf_group_network.specs.Showing.{acked_entry};
ghost use Rattle.pf_shared.specs.pf_group.specs.Readers.{IsAppliedOf, is_left, snapshot_in};
ghost use Rattle.pf_shared.specs.Calls.{Finds, IsHistory};
ghost use Rattle.pf_shared.specs.Seats.{IsAlone, IsSameSeat, IsSeatOf, number_of, root_in, seen_by};
ghost use Rattle.pf_shared.specs.Telling.{Tells};
ghost use Rattle.pf_live_looks.specs.Looks.{SeatTakesRead, look_told};
ghost use Rattle.pf_live_looks.specs.Telling.{TellsAt};

use crate::{LookFault, copies};
use pf_base::{Data, NoMemory, Sectors, ServerId, Slot, Term};
use pf_disk::Disk;
use pf_entry::Entry;
use pf_holes::SlotSet;
use pf_shared::pf_group::Down;
use pf_shared::pf_group_rounds::pf_group_network::Acked;
use pf_shared::{GroupSeat, SharedGroup};
use std::alloc::Global;
use std::sync::Wait;

/// What is told of a server, or why it is not.
fn told_of<T>(told: Result<Result<T, Down>, NoMemory>) -> Result<T, LookFault>
    ensures { result ≡ look_told told }
{
    Ok(told??)
}

/// Hands out the sectors that a read was answered with, once. `None` exactly where no read has this number, where it waits for
/// its answer, or where its answer was handed out.
///
/// The room for the entry is taken first, so `NoMemory` (1) hands nothing out and is no entry.
pub fn take_read<R: Wait, D: Disk + Drop>(
    shared: &SharedGroup<D>,
    rt: &R,
    seat: &mut GroupSeat<D>,
    number: u64,
) -> Result<Option<Data>, NoMemory>
    requires { IsSeatOf shared.now seat.old }
    ensures seat { IsSeatOf shared.now seat.new × IsSameSeat seat.old seat.new }
    ensures look { IfOk result (λ it. SeatTakesRead (root_in shared.now) (number_of seat.old) (IsAlone seat.old) (seen_by seat.old) number it
        (seen_by seat.new)) }
    ensures err { OnErr result (Finds (number_of seat.old) (IsAlone seat.old) (seen_by seat.old) (seen_by seat.new)) }
    ensures history { IsHistory (root_in shared.now) (seen_by seat.new) }
{
    let mut turn = shared.begin(rt, seat);
    let stamp = seat.number();
    let answer = turn.value.take_read(stamp, number);
    shared.end(seat, turn);
    answer
}

/// The slots that were acknowledged to hosts, in order. `NoMemory` (1) is no entry.
pub fn acked<R: Wait, D: Disk + Drop>(
    shared: &SharedGroup<D>,
    rt: &R,
    alloc: Global,
    seat: &mut GroupSeat<D>,
) -> Result<Vec<Acked>, NoMemory>
    requires { IsSeatOf shared.now seat.old }
    ensures { Tells shared.now seat.old seat.new result (λ acked g. acked.items ≡ map acked_entry g.acked) }
{
    let turn = shared.begin(rt, seat);
    let told = copies::acked(alloc, turn.value.group());
    shared.end_look(seat, turn, told)
}

/// How many packets were ever sent, at most 65,536. They have the numbers below it. `NoMemory` (1) is no entry.
pub fn packets<R: Wait, D: Disk + Drop>(
    shared: &SharedGroup<D>,
    rt: &R,
    seat: &mut GroupSeat<D>,
) -> Result<u32, NoMemory>
    requires { IsSeatOf shared.now seat.old }
    ensures told { Tells shared.now seat.old seat.new result (λ count g. count ≡ length g.packets) }
    ensures few { IfOk result (λ count. count ≤ 65536) }
{
    let turn = shared.begin(rt, seat);
    let told = Ok(turn.value.group().packets());
    shared.end_look(seat, turn, told)
}

/// Whether packet `number` was sent, and neither delivered nor lost. `NoMemory` (1) is no entry.
pub fn is_left<R: Wait, D: Disk + Drop>(
    shared: &SharedGroup<D>,
    rt: &R,
    seat: &mut GroupSeat<D>,
    number: u32,
) -> Result<bool, NoMemory>
    requires { IsSeatOf shared.now seat.old }
    ensures told { Tells shared.now seat.old seat.new result (λ left g. left ≡ is_left (slice_get g.packets number)) }
    ensures sent { IfOk result (λ left. IsTrue left → number < 65536) }
{
    let turn = shared.begin(rt, seat);
    let told = Ok(turn.value.group().is_left(number));
    shared.end_look(seat, turn, told)
}

/// The term of the server.
///
/// `Down` (51) exactly where it does not run, which has an entry; `NoMemory` (1) is no entry.
pub fn term_of<R: Wait, D: Disk + Drop>(
    shared: &SharedGroup<D>,
    rt: &R,
    seat: &mut GroupSeat<D>,
    server: ServerId,
) -> Result<Term, LookFault>
    requires seat { IsSeatOf shared.now seat.old }
    requires server { server < 3 }
    ensures { TellsAt shared.now seat.old seat.new server result (λ term s. term ≡ s.durable.term) }
{
    let turn = shared.begin(rt, seat);
    let told = Ok(turn.value.group().term_of(server));
    told_of(shared.end_look(seat, turn, told))
}

/// The checkpoint of the server: each slot up to it is applied, and its records no longer have its entries.
///
/// `Down` (51) exactly where it does not run, which has an entry; `NoMemory` (1) is no entry.
pub fn base_of<R: Wait, D: Disk + Drop>(
    shared: &SharedGroup<D>,
    rt: &R,
    seat: &mut GroupSeat<D>,
    server: ServerId,
) -> Result<Slot, LookFault>
    requires seat { IsSeatOf shared.now seat.old }
    requires server { server < 3 }
    ensures { TellsAt shared.now seat.old seat.new server result (λ base s. base ≡ s.durable.base) }
{
    let turn = shared.begin(rt, seat);
    let told = Ok(copies::base_of(turn.value.group(), server));
    told_of(shared.end_look(seat, turn, told))
}

/// A copy of the entry in the server's log, `None` exactly where it holds none of this slot. Its sectors are shared.
///
/// `Down` (51) exactly where the server does not run, which has an entry; `NoMemory` (1) is no entry.
pub fn entry_of<R: Wait, D: Disk + Drop>(
    shared: &SharedGroup<D>,
    rt: &R,
    alloc: Global,
    seat: &mut GroupSeat<D>,
    server: ServerId,
    slot: Slot,
) -> Result<Option<Entry>, LookFault>
    requires seat { IsSeatOf shared.now seat.old }
    requires server { server < 3 }
    ensures { TellsAt shared.now seat.old seat.new server result (λ held s. held ≡ finite.get s.durable.log slot) }
{
    let turn = shared.begin(rt, seat);
    let told = copies::entry_of(alloc, turn.value.group(), server, slot);
    told_of(shared.end_look(seat, turn, told))
}

/// Whether the server knows the slot above its checkpoint to be committed.
///
/// `Down` (51) exactly where the server does not run, which has an entry; `NoMemory` (1) is no entry.
pub fn is_committed_of<R: Wait, D: Disk + Drop>(
    shared: &SharedGroup<D>,
    rt: &R,
    seat: &mut GroupSeat<D>,
    server: ServerId,
    slot: Slot,
) -> Result<bool, LookFault>
    requires seat { IsSeatOf shared.now seat.old }
    requires server { server < 3 }
    ensures { TellsAt shared.now seat.old seat.new server result (λ is s. is ≡ set.contains s.committed slot) }
{
    let turn = shared.begin(rt, seat);
    let told = Ok(copies::is_committed_of(turn.value.group(), server, slot));
    told_of(shared.end_look(seat, turn, told))
}

/// A copy of the slots that the server has applied, those up to its checkpoint too.
///
/// `Down` (51) exactly where it does not run, which has an entry; `NoMemory` (1) is no entry.
pub fn applied_of<R: Wait, D: Disk + Drop>(
    shared: &SharedGroup<D>,
    rt: &R,
    alloc: Global,
    seat: &mut GroupSeat<D>,
    server: ServerId,
) -> Result<SlotSet, LookFault>
    requires seat { IsSeatOf shared.now seat.old }
    requires server { server < 3 }
    ensures { TellsAt shared.now seat.old seat.new server result (λ slots s. IsAppliedOf slots.slots s) }
{
    let turn = shared.begin(rt, seat);
    let told = copies::applied_of(alloc, turn.value.group(), server);
    told_of(shared.end_look(seat, turn, told))
}

/// A copy of the sectors of the server's chunk.
///
/// `Down` (51) exactly where it does not run, which has an entry; `NoMemory` (1) is no entry.
pub fn sectors_of<R: Wait, D: Disk + Drop>(
    shared: &SharedGroup<D>,
    rt: &R,
    alloc: Global,
    seat: &mut GroupSeat<D>,
    server: ServerId,
) -> Result<Sectors, LookFault>
    requires seat { IsSeatOf shared.now seat.old }
    requires server { server < 3 }
    ensures { TellsAt shared.now seat.old seat.new server result (λ sectors s. sectors ≡ s.sectors) }
{
    let turn = shared.begin(rt, seat);
    let told = copies::sectors_of(alloc, turn.value.group(), server);
    told_of(shared.end_look(seat, turn, told))
}

/// A copy of the sectors at a mark that the server applied since it began. `None` exactly where it does not run, or keeps none of
/// this slot: it keeps those of its four greatest marks. `NoMemory` (1) is no entry.
pub fn snapshot<R: Wait, D: Disk + Drop>(
    shared: &SharedGroup<D>,
    rt: &R,
    alloc: Global,
    seat: &mut GroupSeat<D>,
    server: ServerId,
    slot: Slot,
) -> Result<Option<Sectors>, NoMemory>
    requires seat { IsSeatOf shared.now seat.old }
    requires server { server < 3 }
    ensures { Tells shared.now seat.old seat.new result (λ sectors g. sectors ≡ snapshot_in (slice_get g.servers server) slot) }
{
    let turn = shared.begin(rt, seat);
    let told = copies::snapshot(alloc, turn.value.group(), server, slot);
    shared.end_look(seat, turn, told)
}
