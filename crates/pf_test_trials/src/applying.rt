//! What servers apply, beside the closure of what they had applied.
ghost use Rattle.std.specs.Prelude.{◌≡◌, ◌<◌, [], IfOk, OnOk};
ghost use Rattle.pf_protocol.specs.Answers.{claims_of};

use crate::live::disks;
use pf_base::{Data, NoMemory, Payload, Range, ServerId};
use pf_disk::RamDisk;
use pf_group::{Group, GroupEvent};
use pf_group_copy::{OpenGate, Workers};
use pf_holes::{HoleLog, SlotSet, closure};
use pf_live_line::pf_group_rounds::apply_all;
use std::alloc::Global;
use std::thread::Threads;

/// Packets have the numbers below this one.
const PACKETS: u32 = 65_536;

/// A new group of 16 sectors, whose entries name two slots.
fn new_group(alloc: Global) -> Result<Group<RamDisk>, NoMemory>
    ensures { IfOk result (λ group. claims_of [] group.history ≡ []) }
{
    match Group::new(alloc, 0, 16, 2, 2, disks(alloc)?) {
        Ok((group, _)) => Ok(group),
        Err((_, NoMemory)) => Err(NoMemory),
    }
}

/// Server 0 stands for election.
fn elect(alloc: Global, group: &mut Group<RamDisk>) -> Result<(), NoMemory>
    requires { claims_of [] group.old.history ≡ [] }
    ensures { OnOk result (claims_of [] group.new.history ≡ []) }
{
    group.step(alloc, GroupEvent::Elect(0))?;
    Ok(())
}

/// Packet `k` comes.
fn deliver(alloc: Global, group: &mut Group<RamDisk>, k: u32) -> Result<(), NoMemory>
    requires { claims_of [] group.old.history ≡ [] }
    ensures { OnOk result (claims_of [] group.new.history ≡ []) }
{
    group.step(alloc, GroupEvent::Deliver(k))?;
    Ok(())
}

/// Each packet from `from` on comes, in the order of sending.
fn deliver_all(alloc: Global, group: &mut Group<RamDisk>, from: u32) -> Result<(), NoMemory>
    requires { claims_of [] group.old.history ≡ [] }
    ensures { OnOk result (claims_of [] group.new.history ≡ []) }
{
    for k in from..PACKETS {
        if k >= group.packets() {
            break;
        }
        deliver(alloc, group, k)?;
    }
    Ok(())
}

/// Packet `k` is lost.
fn lose(alloc: Global, group: &mut Group<RamDisk>, k: u32) -> Result<(), NoMemory>
    requires { claims_of [] group.old.history ≡ [] }
    ensures { OnOk result (claims_of [] group.new.history ≡ []) }
{
    group.step(alloc, GroupEvent::Lose(k))?;
    Ok(())
}

/// A host asks server 0 to write one sector.
fn write(alloc: Global, group: &mut Group<RamDisk>, sector: u32) -> Result<(), NoMemory>
    requires { claims_of [] group.old.history ≡ [] }
    ensures { OnOk result (claims_of [] group.new.history ≡ []) }
{
    let Ok(range) = Range::new(sector, 1) else {
        return Ok(());
    };
    let payload = Payload::new(alloc, Data::filled(alloc, 7, 1)?)?;
    let event = GroupEvent::Submit {
        server: 0,
        range,
        payload,
    };
    group.step(alloc, event)?;
    Ok(())
}

/// Five writes of one sector at server 0, of which the first comes to no other server, so that its slot stays a hole. The second and the
/// third pass it. The fourth and the fifth do not name it, so they do not.
fn write_round_a_hole(alloc: Global, group: &mut Group<RamDisk>) -> Result<(), NoMemory>
    requires { claims_of [] group.old.history ≡ [] }
    ensures { OnOk result (claims_of [] group.new.history ≡ []) }
{
    elect(alloc, group)?;
    deliver_all(alloc, group, 0)?;
    let lost = group.packets();
    write(alloc, group, 0)?;
    lose(alloc, group, lost)?;
    lose(alloc, group, lost.saturating_add(1))?;
    for sector in [2, 2, 0, 5] {
        write(alloc, group, sector)?;
    }
    deliver_all(alloc, group, lost)
}

/// The slots of a log that are committed.
fn committed_in(alloc: Global, log: &HoleLog) -> Result<SlotSet, NoMemory> {
    let mut committed = SlotSet::new(alloc);
    for slot in log.base()..log.last() {
        if log.is_committed(slot + 1) {
            committed.reserve(1)?;
            committed.add(slot + 1);
        }
    }
    Ok(committed)
}

/// What the server can apply, with what it applied: none where it does not run.
fn reachable(
    alloc: Global,
    group: &Group<RamDisk>,
    server: ServerId,
) -> Result<Option<SlotSet>, NoMemory>
    requires { server < 3 }
{
    let Ok(me) = group.running(server) else {
        return Ok(None);
    };
    let entries = me.log.copied(alloc)?;
    let committed = committed_in(alloc, &me.log)?;
    let reached = closure(alloc, entries.as_slice(), &committed, &me.applied)?;
    Ok(Some(reached))
}

/// Whether the server applied these slots and no others.
fn has_applied(
    alloc: Global,
    group: &Group<RamDisk>,
    server: ServerId,
    reached: &Option<SlotSet>,
) -> Result<bool, NoMemory>
    requires { server < 3 }
{
    let Some(reached) = reached else {
        return Ok(false);
    };
    let Ok(me) = group.running(server) else {
        return Ok(false);
    };
    let slots = me.applied.above(alloc, 0)?;
    Ok(slots.as_slice() == reached.above(alloc, 0)?.as_slice())
}

/// Whether the server applied just the two writes that pass the hole.
fn has_passed(alloc: Global, group: &Group<RamDisk>, server: ServerId) -> Result<bool, NoMemory>
    requires { server < 3 }
{
    let Ok(me) = group.running(server) else {
        return Ok(false);
    };
    let slots = me.applied.above(alloc, 0)?;
    Ok(matches!(slots.as_slice(), [2, 3]))
}

/// Whether each server applied what the closure has of what it had applied.
fn all_apply_it<R: Threads + Sync>(rt: &R, alloc: Global) -> Result<bool, NoMemory> {
    let mut group = new_group(alloc)?;
    write_round_a_hole(alloc, &mut group)?;
    let zero = reachable(alloc, &group, 0)?;
    let one = reachable(alloc, &group, 1)?;
    let two = reachable(alloc, &group, 2)?;
    let workers = Workers {
        rt,
        alloc,
        gate: &OpenGate,
        count: 1,
    };
    apply_all(&workers, &mut group)?;
    Ok(
        has_applied(alloc, &group, 0, &zero)?
            && has_applied(alloc, &group, 1, &one)?
            && has_applied(alloc, &group, 2, &two)?
            && has_passed(alloc, &group, 0)?
            && has_passed(alloc, &group, 1)?
            && has_passed(alloc, &group, 2)?,
    )
}

#[test]
fn what_is_applied_is_the_closure(rt: HostRuntime) {
    assert!(rt; all_apply_it(&rt, rt.alloc()) == Ok(true));
}
