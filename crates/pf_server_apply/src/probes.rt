//! Probes are answered.
ghost use Rattle.std.specs.Prelude.{◌≡◌, ◌<◌, ◌≤◌, None, OnOk};
ghost use Rattle.pf_protocol.specs.Leading.{on_probe_ok};
ghost use Rattle.pf_server_memory.specs.Standing.{CanStep, StepsQuietly};
ghost use Rattle.pf_server_apply.specs.Probing.{HasNoFewerRooms, probe_heard, is_serving_here, knowing};

use pf_base::{NoMemory, ServerId, Slot, Term};
use pf_protocol::Answer;
use pf_server_memory::{Replies, Role, Running, StepFault};
use pf_server_store::Store;
use std::alloc::Global;

/// Keeps what a server has applied, at a serving leader, and tells whether it is one.
fn keep_known(role: &mut Role, from: ServerId, upto: Slot) -> bool
    requires { from < 3 }
    ensures role { role.new ≡ knowing role.old from upto }
    ensures serving { result ≡ is_serving_here role.old }
{
    match role {
        Role::Serving(leader) => {
            leader.known.put(from, upto);
            true
        }
        Role::Follower => false,
        Role::Candidate(_) => false,
        Role::Merging(_) => false,
    }
}

/// Takes memory for answers, until there is memory for so many.
fn reserve_up_to(alloc: Global, replies: &mut Replies, count: usize) -> Result<(), NoMemory>
    ensures more { HasNoFewerRooms replies.old replies.new }
    ensures enough { OnOk result (count ≤ replies.new.rooms) }
{
    for _ in replies.rooms()..count {
        replies.reserve(alloc)?;
    }
    Ok(())
}

/// Another server has answered a probe of this term.
fn hear(me: &mut Running, from: ServerId, number: u64, upto: Slot)
    requires { from < 3 }
    ensures { me.new ≡ probe_heard me.old from number upto }
{
    if keep_known(&mut me.role, from, upto) {
        me.reads.confirm(number);
    }
}

/// Another server tells that it knows of no later term, and up to which slot it has applied all. A serving leader of that term
/// confirms the read of this number, for whose answer it takes the memory, and keeps what the server told; at any other server
/// nothing changes. Nothing is sent or stored. `NoMemory` (1) leaves the server as it was.
pub fn probe_ok<S: Store>(
    alloc: Global,
    _store: &S,
    me: &mut Running,
    from: ServerId,
    term: Term,
    number: u64,
    upto: Slot,
) -> Result<Answer, StepFault>
    requires stands { CanStep S.model _store.now me.old }
    requires from { from < 3 }
    ensures step { StepsQuietly S.model (λ s. on_probe_ok s from term number upto s.role) _store.now me.old _store.now me.new result }
{
    if term != me.term {
        return Ok(Answer::Done);
    }
    let count = me.reads.most_confirmed();
    reserve_up_to(alloc, &mut me.replies, count)?;
    hear(me, from, number, upto);
    Ok(Answer::Done)
}
