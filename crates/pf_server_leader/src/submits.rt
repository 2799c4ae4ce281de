//! An op is submitted.
ghost use Rattle.std.specs.Prelude.{◌≡◌, ◌≤◌, ◌<◌, ◌+◌, None, OnOk};
ghost use Rattle.std.specs.FinMap as finite;
ghost use Rattle.pf_entry.specs.Records.{add_start};
ghost use Rattle.pf_entry.specs.declared.packets.Body.TheVariants.{Accept as AcceptIs};
ghost use Rattle.pf_entry.specs.declared.records.Record.TheVariants.{Entry as EntryRecord};
ghost use Rattle.pf_codec.specs.Spelling.{body_bytes};
ghost use Rattle.pf_server_store.specs.Stores.{IsSpelledAs};
ghost use Rattle.pf_protocol.specs.Answers.{IsSubmitted};
ghost use Rattle.pf_protocol.specs.Leading.{on_submit};
ghost use Rattle.pf_server_memory.specs.Bounds.{far};
ghost use Rattle.pf_server_memory.specs.Packets.{AreCanonical};
ghost use Rattle.pf_server_memory.specs.Standing.{setup_of, leader_in_memory, quiet, CanStep, IsBounded, StepsBy, StepsJudged, StepsQuietly};
ghost use Rattle.pf_server_memory.specs.declared.running.Leader.{Leader as LeaderHere};
ghost use Rattle.pf_server_memory.specs.declared.running.Role.TheVariants.{Serving as ServingHere};
ghost use Rattle.pf_server_leader.specs.Submitting.{SlotHasBegun, LeaderHasRoom, LeaderIsLow, IsNextLeader, IsRoomier, IsRoomierRole, entry_proposed, submit_refusal};

use crate::plans::plan;
use pf_base::{NoMemory, ServerId};
use pf_entry::{Entry, Op};
use pf_protocol::Answer;
use pf_server_memory::{
    Leader, Outbox, Role, Running, StepFault, add_entry, send_accept_to_others,
};
use pf_server_store::Store;
use std::alloc::Global;

/// Takes memory for one more proposal of a serving leader.
fn reserve_slot(role: &mut Role) -> Result<(), NoMemory>
    ensures same { IsRoomierRole role.old role.new }
    ensures room { OnOk result (LeaderHasRoom role.new) }
{
    if let Role::Serving(leader) = role {
        leader.acks.reserve(1)?;
    }
    Ok(())
}

/// Takes memory for one more proposal.
fn reserve(me: &mut Running) -> Result<(), NoMemory>
    ensures same { IsRoomier me.old me.new }
    ensures starts { OnOk result (1 ≤ me.new.starts.spare) }
    ensures acks { OnOk result (LeaderHasRoom me.new.role) }
{
    reserve_slot(&mut me.role)?;
    me.starts.reserve()
}

/// The leader has acknowledged its next slot.
fn begin(leader: &mut Leader, me: ServerId)
    requires me { me < 3 }
    requires room { 1 ≤ leader.old.acks.spare }
    requires low { leader.old.next ≤ far }
    ensures { IsNextLeader me leader.old leader.new }
{
    leader.acks.begin(me);
    leader.next += 1;
}

/// The serving leader has acknowledged its next slot.
fn begin_slot(role: &mut Role, me: ServerId)
    requires me { me < 3 }
    requires room { LeaderHasRoom role.old }
    requires low { LeaderIsLow role.old }
    ensures { SlotHasBegun me role.old role.new }
{
    if let Role::Serving(leader) = role {
        begin(leader, me);
    }
}

/// Takes over an entry of the server's own. It takes no memory.
fn keep(me: &mut Running, entry: Entry)
    requires number { me.old.number < 3 }
    requires above { me.old.log.base < entry.slot }
    requires window { entry.slot ≤ me.old.log.base + 4096 }
    requires starts { 1 ≤ me.old.starts.spare }
    requires acks { LeaderHasRoom me.old.role }
    requires low { LeaderIsLow me.old.role }
    ensures starts { me.new.starts.starts ≡ add_start me.old.starts.starts entry.term entry.first }
    ensures role { SlotHasBegun me.old.number me.old.role me.new.role }
    ensures others { me.new ≡ record me.old {
      starts = me.new.starts;
      role = me.new.role;
      log = record me.old.log { entries = finite.insert me.old.log.entries entry.slot entry };
    } }
{
    let number = me.number;
    begin_slot(&mut me.role, number);
    me.starts.put(entry.term, entry.first);
    me.log.put(entry);
}

/// Stores an entry of the server's own, and sends nothing.
fn store_own<S: Store>(
    alloc: Global,
    store: &mut S,
    me: &mut Running,
    entry: Entry,
) -> Result<Answer, StepFault>
    requires stands { CanStep S.model store.old me.old }
    requires spelled { IsSpelledAs (S.model.format store.old) (EntryRecord entry) (body_bytes (EntryRecord entry)) }
    requires term { entry.term ≡ me.old.term }
    requires above { me.old.log.base < entry.slot }
    requires window { entry.slot ≤ me.old.log.base + 4096 }
    requires starts { 1 ≤ me.old.starts.spare }
    requires acks { LeaderHasRoom me.old.role }
    requires low { LeaderIsLow me.old.role }
    ensures { (l : LeaderHere) → me.old.role ≡ ServingHere l → entry.slot ≡ l.next
        → StepsQuietly S.model (λ s. quiet (entry_proposed s (leader_in_memory l) entry)) store.old me.old store.new me.new result }
{
    let slot = entry.slot;
    add_entry(alloc, store, &entry)?;
    keep(me, entry);
    Ok(Answer::Slot(slot))
}

/// Sends and stores an entry of the server's own.
fn propose<S: Store>(
    alloc: Global,
    store: &mut S,
    me: &mut Running,
    entry: Entry,
    out: &mut Outbox,
) -> Result<Answer, StepFault>
    requires stands { CanStep S.model store.old me.old }
    requires fresh { out.old.acked ≡ None }
    requires canonical { AreCanonical me.old.number me.old.term (AcceptIs entry) }
    requires spelled { IsSpelledAs (S.model.format store.old) (EntryRecord entry) (body_bytes (EntryRecord entry)) }
    requires term { entry.term ≡ me.old.term }
    requires above { me.old.log.base < entry.slot }
    requires window { entry.slot ≤ me.old.log.base + 4096 }
    requires starts { 1 ≤ me.old.starts.spare }
    requires acks { LeaderHasRoom me.old.role }
    requires low { LeaderIsLow me.old.role }
    ensures { (l : LeaderHere) → me.old.role ≡ ServingHere l → entry.slot ≡ l.next
        → StepsBy S.model (λ s. entry_proposed s (leader_in_memory l) entry) store.old me.old out.old store.new me.new out.new result }
{
    send_accept_to_others(alloc, out, me.number, me.term, &entry)?;
    store_own(alloc, store, me, entry)
}

/// A write of whole sectors or a mark is submitted. A serving leader gives it its next slot, stores the entry and sends it to
/// the two other servers; the answer is the slot.
///
/// It is refused with `OldFormat` (97) where it is a mark and the volume has the first format, `BadRange` (10) where its range
/// does not fit the chunk, `NotLeader` (50), `WindowFull` (30) where the slot is more than 4,096 above the checkpoint,
/// `PacketsFull` (55) and `LogFull` (41), the first of them that holds. A refusal and `NoMemory` (1) leave the server and the
/// store as they were; after `Halted` (52) a restart finds the record or not.
pub fn submit<S: Store>(
    alloc: Global,
    store: &mut S,
    me: &mut Running,
    op: Op,
    out: &mut Outbox,
) -> Result<Answer, StepFault>
    requires stands { CanStep S.model store.old me.old }
    requires bounded { IsBounded me.old }
    requires fresh { out.old.acked ≡ None }
    requires op { IsSubmitted op }
    ensures step { StepsJudged S.model (submit_refusal (setup_of me.old) out.old op) (λ s. on_submit (setup_of me.old) s op s.role) store.old me.old out.old
        store.new me.new out.new result }
{
    let entry = plan(alloc, me, op)?;
    reserve(me)?;
    propose(alloc, store, me, entry, out)
}
