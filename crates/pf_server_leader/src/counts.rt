//! What a leader counts.
ghost use Rattle.std.specs.Prelude.{◌≡◌, ◌<◌, ◌+◌};
ghost use Rattle.pf_protocol.specs.Leading.{is_own, other_acked};
ghost use Rattle.pf_server_memory.specs.Standing.{leader_in_memory, role_in_memory, IsLeaderKept, IsRoleKept};
ghost use Rattle.pf_server_leader.specs.Acking.{AckIsCounted, IsSettled, after_ack, announces, owns, served};

use pf_base::{ServerId, Slot};
use pf_server_memory::{Leader, Role, others_of};

/// Whether the slot is a proposal of this leader.
fn is_own(leader: &Leader, slot: Slot) -> bool
    ensures { result ≡ is_own (leader_in_memory leader.now) slot }
{
    leader.acks.base() < slot && slot < leader.next
}

/// Whether another server acknowledged the slot.
fn other_acked(leader: &Leader, me: ServerId, slot: Slot) -> bool
    requires { me < 3 }
    ensures { result ≡ other_acked (leader_in_memory leader.now) me slot }
{
    let (first, second) = others_of(me);
    leader.acks.has(first, slot) || leader.acks.has(second, slot)
}

/// Whether the slot is a proposal of the leader, if there is one.
pub fn owns(role: &Role, slot: Slot) -> bool
    ensures { result ≡ owns (role_in_memory role.now) slot }
{
    match role {
        Role::Serving(leader) => is_own(leader, slot),
        Role::Merging(leader) => is_own(leader, slot),
        Role::Follower => false,
        Role::Candidate(_) => false,
    }
}

/// Whether an acknowledgement of the slot is told to the host: it is the first of a new entry by another server.
pub fn announces(me: ServerId, role: &Role, slot: Slot) -> bool
    requires { me < 3 }
    ensures { result ≡ announces me (role_in_memory role.now) slot }
{
    match role {
        Role::Serving(leader) => {
            is_own(leader, slot) && leader.first <= slot && !other_acked(leader, me, slot)
        }
        _ => false,
    }
}

/// Another server has acknowledged the slot, and told up to where it has applied all.
fn count(leader: &mut Leader, from: ServerId, slot: Slot, upto: Slot)
    requires from { from < 3 }
    requires counted { leader.old.acks.base + leader.old.acks.count + 1 ≡ leader.old.next }
    ensures { AckIsCounted from slot upto leader.old leader.new }
{
    leader.known.put(from, upto);
    if is_own(leader, slot) {
        leader.acks.add(from, slot);
    }
}

/// The slot up to which each merged one was acknowledged by another server.
fn settled_upto(leader: &Leader, me: ServerId) -> Slot
    requires me { me < 3 }
    requires high { leader.now.settled < leader.now.first }
    ensures { IsSettled me leader.now result }
{
    let last = leader.first - 1;
    for slot in leader.settled..last {
        if !other_acked(leader, me, slot + 1) {
            return slot;
        }
    }
    last
}

/// A merging leader serves once each merged slot was acknowledged by another server.
fn serve(mut leader: Leader, me: ServerId) -> Role
    requires me { me < 3 }
    requires kept { IsLeaderKept me leader }
    ensures role { role_in_memory result ≡ served me (leader_in_memory leader) }
    ensures kept { IsRoleKept me result }
{
    leader.settled = settled_upto(&leader, me);
    if leader.settled + 1 == leader.first {
        Role::Serving(leader)
    } else {
        Role::Merging(leader)
    }
}

/// The role after an acknowledgement of the slot.
pub fn advance(role: Role, me: ServerId, from: ServerId, slot: Slot, upto: Slot) -> Role
    requires me { me < 3 }
    requires from { from < 3 }
    requires kept { IsRoleKept me role }
    ensures role { role_in_memory result ≡ after_ack me from slot upto (role_in_memory role) }
    ensures kept { IsRoleKept me result }
{
    match role {
        Role::Serving(mut leader) => {
            count(&mut leader, from, slot, upto);
            Role::Serving(leader)
        }
        Role::Merging(mut leader) => {
            count(&mut leader, from, slot, upto);
            serve(leader, me)
        }
        Role::Follower => Role::Follower,
        Role::Candidate(candidacy) => Role::Candidate(candidacy),
    }
}
