//! Packets are sent again.
ghost use Rattle.std.specs.Prelude.{◌≡◌, ◌<◌, ◌-◌, [], ◌∷◌, None, Some, if◌then◌else◌, nat_lt, suc};
ghost use Rattle.std.specs.List.{flat_map, range_with_len};
ghost use Rattle.pf_entry.specs.Sets as set;
ghost use Rattle.pf_entry.specs.Canonical.{IsCanonicalEntry, second_format};
ghost use Rattle.pf_entry.specs.Records.{Durable};
ghost use Rattle.pf_entry.specs.declared.packets.Body.TheVariants.{Image as ImageIs};
ghost use Rattle.pf_protocol.specs.Leading.{knows, on_resend, resent, resent_entry};
ghost use Rattle.pf_protocol.specs.Outcomes.{other_servers};
ghost use Rattle.pf_server_memory.specs.Outgoing.{Sends};
ghost use Rattle.pf_server_memory.specs.Packets.{packet};
ghost use Rattle.pf_server_memory.specs.Standing.{server_of, state_in_memory, leader_in_memory, role_in_memory, CanStep, IsBounded, IsCached, StepsBy};
ghost use Rattle.pf_server_leader.specs.Resending.{AreOfOwnTerm, CanSend, CanSendToBoth, IsPeer, probes, slot_packets};

use crate::catch_up::plan;
use crate::ways::SubmitPlan;
use pf_base::{ServerId, Slot};
use pf_entry::{Body, Entry};
use pf_protocol::Answer;
use pf_server_memory::{Leader, Outbox, Role, Running, StepFault, others_of, send, send_to_others};
use pf_server_store::Store;
use std::alloc::Global;

/// Sends the sectors to a server that has not applied all that the checkpoint has, as far as the leader knows.
fn send_image(
    alloc: Global,
    me: &Running,
    leader: &Leader,
    to: ServerId,
    out: &mut Outbox,
) -> Result<(), StepFault>
    requires { CanSend me.now leader.now.next to }
    ensures { Sends out.old out.new (if nat_lt (knows (leader_in_memory leader.now) to) me.now.log.base
        then packet me.now.number to me.now.term (ImageIs me.now.log.base (set.retain me.now.applied.slots (nat_lt me.now.log.base)) me.now.sectors) ∷ []
        else []) result }
{
    let base = me.log.base();
    let SubmitPlan::Image = plan(leader.known.get(to), base) else {
        return Ok(());
    };
    let applied = me.applied.above(alloc, base)?;
    out.push_image(alloc, me, to, &applied)
}

/// Sends the slot's entry to a server that has not acknowledged it, and a commit to one that has, but has not applied it as
/// far as the leader knows.
fn send_entry(
    alloc: Global,
    me: &Running,
    leader: &Leader,
    to: ServerId,
    entry: &Entry,
    out: &mut Outbox,
) -> Result<(), StepFault>
    requires peer { IsPeer me.now to }
    requires canonical { IsCanonicalEntry second_format entry.now × (entry.now.term ≡ me.now.term) }
    ensures { Sends out.old out.new (resent_entry (server_of (state_in_memory me.now) me.now) (leader_in_memory leader.now) to (Some entry.now) entry.now.slot)
        result }
{
    let slot = entry.slot;
    if !leader.acks.has(to, slot) {
        return out.push_accept(alloc, me.number, to, me.term, entry);
    }
    if leader.known.get(to) < slot {
        return send(alloc, out, me.number, to, me.term, Body::Commit { slot });
    }
    Ok(())
}

/// Sends what a server lacks of one slot.
fn send_slot(
    alloc: Global,
    me: &Running,
    leader: &Leader,
    to: ServerId,
    slot: Slot,
    out: &mut Outbox,
) -> Result<(), StepFault>
    requires can { CanSend me.now leader.now.next to }
    requires above { me.now.log.base < slot }
    requires below { slot < leader.now.next }
    ensures { Sends out.old out.new (slot_packets me.now leader.now to slot) result }
{
    match me.log.get(slot) {
        Some(entry) => send_entry(alloc, me, leader, to, entry, out),
        None => Ok(()),
    }
}

/// Sends what a server lacks of the slots above the checkpoint.
fn send_slots(
    alloc: Global,
    me: &Running,
    leader: &Leader,
    to: ServerId,
    out: &mut Outbox,
) -> Result<(), StepFault>
    requires can { CanSend me.now leader.now.next to }
    requires above { me.now.log.base < leader.now.next }
    ensures { Sends out.old out.new (flat_map (slot_packets me.now leader.now to)
        (range_with_len (suc me.now.log.base) (leader.now.next - suc me.now.log.base))) result }
{
    let base = me.log.base();
    for slot in base..leader.next - 1 {
        send_slot(alloc, me, leader, to, slot + 1, out)?;
    }
    Ok(())
}

/// Sends a probe for each read that no server has confirmed.
fn send_probes(alloc: Global, me: &Running, to: ServerId, out: &mut Outbox) -> Result<(), StepFault>
    requires { IsPeer me.now to }
    ensures { Sends out.old out.new (probes me.now to me.now.reads) result }
{
    for place in 0..me.reads.len() {
        let read = me.reads.at(place);
        if !read.confirmed {
            let number = read.number;
            send(alloc, out, me.number, to, me.term, Body::Probe { number })?;
        }
    }
    Ok(())
}

/// Sends to one server what it lacks, as far as the leader knows.
fn resend_to(
    alloc: Global,
    me: &Running,
    leader: &Leader,
    to: ServerId,
    out: &mut Outbox,
) -> Result<(), StepFault>
    requires can { CanSend me.now leader.now.next to }
    requires above { me.now.log.base < leader.now.next }
    ensures { Sends out.old out.new (resent (server_of (state_in_memory me.now) me.now) (leader_in_memory leader.now) to) result }
{
    send_image(alloc, me, leader, to, out)?;
    send_slots(alloc, me, leader, to, out)?;
    send_probes(alloc, me, to, out)
}

/// Sends to the two other servers what they lack, as far as the leader knows.
fn resend_to_both(
    alloc: Global,
    me: &Running,
    leader: &Leader,
    out: &mut Outbox,
) -> Result<(), StepFault>
    requires me { me.now.number < 3 }
    requires can { CanSendToBoth me.now leader.now.next }
    requires above { me.now.log.base < leader.now.next }
    ensures { Sends out.old out.new (flat_map (resent (server_of (state_in_memory me.now) me.now) (leader_in_memory leader.now)) (other_servers me.now.number))
        result }
{
    let (first, second) = others_of(me.number);
    resend_to(alloc, me, leader, first, out)?;
    resend_to(alloc, me, leader, second, out)
}

/// Sends again what the role asks for.
fn send_again(alloc: Global, me: &Running, out: &mut Outbox) -> Result<(), StepFault>
    requires cached { (d : Durable) × IsCached d me.now }
    requires bounded { IsBounded me.now }
    requires own { AreOfOwnTerm me.now }
    ensures { Sends out.old out.new (on_resend (server_of (state_in_memory me.now) me.now) (role_in_memory me.now.role)).packets result }
{
    match &me.role {
        Role::Follower => {
            let body = Body::Ack {
                slot: me.log.base(),
                upto: me.upto(),
            };
            send_to_others(alloc, out, me.number, me.term, body)
        }
        Role::Candidate(_) => {
            let body = Body::RequestVote {
                base: me.log.base(),
            };
            send_to_others(alloc, out, me.number, me.term, body)
        }
        Role::Merging(leader) => resend_to_both(alloc, me, leader, out),
        Role::Serving(leader) => resend_to_both(alloc, me, leader, out),
    }
}

/// Sends packets again that may have been lost: a follower acknowledges its checkpoint, a candidate asks for votes, and a leader sends
/// each other server its sectors, entries, commits and probes, as far as it does not know that they arrived. Nothing is stored.
///
/// `NoMemory` (1) and `PacketsFull` (55) change nothing.
pub fn resend<S: Store>(
    alloc: Global,
    _store: &S,
    me: &Running,
    out: &mut Outbox,
) -> Result<Answer, StepFault>
    requires stands { CanStep S.model _store.now me.now }
    requires bounded { IsBounded me.now }
    requires fresh { out.old.acked ≡ None }
    requires own { AreOfOwnTerm me.now }
    ensures step { StepsBy S.model (λ s. on_resend s s.role) _store.now me.now out.old _store.now me.now out.new result }
{
    send_again(alloc, me, out)?;
    Ok(Answer::Done)
}
