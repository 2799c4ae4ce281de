//! An acknowledgement comes.
ghost use Rattle.std.specs.Prelude.{◌≡◌, ◌<◌, ◌&&◌, if◌then◌else◌, [], ◌∷◌, None, Some};
ghost use Rattle.std.specs.FinMap as finite;
ghost use Rattle.pf_entry.specs.Sets as set;
ghost use Rattle.pf_entry.specs.Canonical.{IsCanonicalPacket};
ghost use Rattle.pf_entry.specs.Records.{has_term};
ghost use Rattle.pf_entry.specs.declared.packets.Body.TheVariants.{Ack as AckIs, Commit as CommitIs};
ghost use Rattle.pf_protocol.specs.Leading.{on_ack};
ghost use Rattle.pf_server_memory.specs.Outgoing.{Sends};
ghost use Rattle.pf_server_memory.specs.Packets.{packet};
ghost use Rattle.pf_server_memory.specs.Standing.{role_in_memory, CanStep, IsRoleKept, StepsBy};
ghost use Rattle.pf_server_leader.specs.Acking.{after_ack, announces, owns};
ghost use Rattle.pf_server_memory.specs.Coming.{IsComing};

use crate::counts::{advance, announces, owns};
use pf_base::{ServerId, Slot, Term};
use pf_entry::Body;
use pf_protocol::Answer;
use pf_server_memory::{Outbox, Role, Running, StepFault, send};
use pf_server_store::Store;
use std::alloc::Global;
use std::mem::replace;

/// Tells the server that the slot's entry is chosen, where the slot is a proposal of this leader.
fn send_commit(
    alloc: Global,
    me: &Running,
    to: ServerId,
    slot: Slot,
    out: &mut Outbox,
) -> Result<(), StepFault>
    requires { IsCanonicalPacket (packet me.now.number to me.now.term (CommitIs slot)) }
    ensures { Sends out.old out.new (if owns (role_in_memory me.now.role) slot then packet me.now.number to me.now.term (CommitIs slot) ∷ [] else []) result }
{
    if !owns(&me.role, slot) {
        return Ok(());
    }
    send(alloc, out, me.number, to, me.term, Body::Commit { slot })
}

/// Tells the host that the slot is acknowledged, where this is the first acknowledgement of it by another server.
fn announce(me: &Running, slot: Slot, out: &mut Outbox)
    requires { me.now.number < 3 }
    ensures { out.new ≡ record out.old { acked = if announces me.now.number (role_in_memory me.now.role) slot then Some slot else out.old.acked } }
{
    if announces(me.number, &me.role, slot) {
        out.acknowledge(slot);
    }
}

/// The slot is committed from now on, where it is a proposal of this leader and the log has its entry of this term.
fn commit(me: &mut Running, slot: Slot)
    ensures { me.new ≡ record me.old {
      log = record me.old.log {
        committed = if owns (role_in_memory me.old.role) slot && has_term me.old.term (finite.get me.old.log.entries slot)
            then set.insert me.old.log.committed slot else me.old.log.committed;
      };
    } }
{
    if owns(&me.role, slot) {
        me.log.commit(slot, me.term);
    }
}

/// The leader has counted the acknowledgement.
fn take(me: &mut Running, from: ServerId, slot: Slot, upto: Slot)
    requires me { me.old.number < 3 }
    requires from { from < 3 }
    requires kept { IsRoleKept me.old.number me.old.role }
    ensures role { role_in_memory me.new.role ≡ after_ack me.old.number from slot upto (role_in_memory me.old.role) }
    ensures kept { IsRoleKept me.old.number me.new.role }
    ensures others { me.new ≡ record me.old {
      role = me.new.role;
      log = record me.old.log {
        committed = if owns (role_in_memory me.old.role) slot && has_term me.old.term (finite.get me.old.log.entries slot)
            then set.insert me.old.log.committed slot else me.old.log.committed;
      };
    } }
{
    commit(me, slot);
    let role = replace(&mut me.role, Role::Follower);
    me.role = advance(role, me.number, from, slot, upto);
}

/// Another server acknowledges a slot of the term, and tells up to where it has applied all. A leader of that term counts it:
/// it commits the slot and tells that server so where the slot is a proposal of its own, and serves once each slot that it
/// merged was acknowledged by another server. A new entry's first acknowledgement is told to the host. Any other server
/// does nothing: one of a higher term may have the slot under its checkpoint with another op. Nothing is stored.
///
/// `NoMemory` (1) and `PacketsFull` (55) leave the server as it was.
pub fn ack<S: Store>(
    alloc: Global,
    _store: &S,
    me: &mut Running,
    from: ServerId,
    term: Term,
    slot: Slot,
    upto: Slot,
    out: &mut Outbox,
) -> Result<Answer, StepFault>
    requires stands { CanStep S.model _store.now me.old }
    requires fresh { out.old.acked ≡ None }
    requires coming { IsComing me.old from term (AckIs slot upto) }
    ensures step { StepsBy S.model (λ s. on_ack s from term slot upto s.role) _store.now me.old out.old _store.now me.new out.new result }
{
    if term != me.term {
        return Ok(Answer::Done);
    }
    send_commit(alloc, me, from, slot, out)?;
    announce(me, slot, out);
    take(me, from, slot, upto);
    Ok(Answer::Done)
}
