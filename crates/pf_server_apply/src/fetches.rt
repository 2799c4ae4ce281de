//! Reads are taken up.
ghost use Rattle.std.specs.Prelude.{◌≡◌, ◌&&◌, IfOk, None};
ghost use Rattle.pf_entry.specs.Records.{Durable};
ghost use Rattle.pf_entry.specs.Sets as set;
ghost use Rattle.pf_protocol.specs.Leading.{on_fetch};
ghost use Rattle.pf_server_memory.specs.Standing.{server_of, setup_of, CanStep, IsBounded, IsCached, StepsJudged};
ghost use Rattle.pf_server_apply.specs.Fetching.{fetch_refusal, is_waited_for, waits_for};
ghost use Rattle.pf_server_apply.specs.Probing.{is_serving_here};

use pf_base::{NoMemory, Range, Slot};
use pf_entry::{Body, Slots};
use pf_protocol::{Answer, Refusal};
use pf_server_memory::{Outbox, Role, Running, StepFault, send_to_others};
use pf_server_store::Store;
use std::alloc::Global;

/// Whether the slot is committed, not applied, and its op overlaps the range.
fn is_waited_for(me: &Running, slot: Slot, range: &Range) -> bool
    ensures { result ≡ (set.contains me.now.log.committed slot && is_waited_for me.now range.now slot) }
{
    if !me.log.is_committed(slot) {
        return false;
    }
    if me.applied.has(slot) {
        return false;
    }
    match me.log.get(slot) {
        Some(entry) => entry.op.range().overlaps(range),
        None => false,
    }
}

/// The slots that a read of the range has to wait for. It looks above the applied prefix, and as far as a slot is held.
fn slots_before(alloc: Global, me: &Running, range: &Range) -> Result<Slots, NoMemory>
    ensures { IfOk result (λ slots. (d : Durable) → IsCached d me.now → slots ≡ waits_for (server_of d me.now) range.now) }
{
    let mut slots = Vec::new(alloc);
    let from = me.log.base().max(me.applied.upto());
    let count = me.log.last().saturating_sub(from);
    for passed in 0..count {
        let slot = from + passed + 1;
        if is_waited_for(me, slot, range) {
            slots.push(slot)?;
        }
    }
    Ok(Slots::new(slots))
}

fn is_serving(role: &Role) -> bool
    ensures { result ≡ is_serving_here role.now }
{
    match role {
        Role::Serving(_) => true,
        Role::Follower => false,
        Role::Candidate(_) => false,
        Role::Merging(_) => false,
    }
}

/// A host asks for the sectors of a range. A serving leader takes the read up, which waits for the slots that are committed but
/// not applied and whose ops overlap the range, and sends a probe of the read's number to the two other servers.
///
/// `BadRange` (10) where the range does not lie in the chunk, `NotLeader` (50) where the server is no serving leader,
/// `PacketsFull` (55) where the probes do not fit the outbox, and `NoMemory` (1) leave the server as it was.
pub fn fetch<S: Store>(
    alloc: Global,
    _store: &S,
    me: &mut Running,
    range: Range,
    number: u64,
    out: &mut Outbox,
) -> Result<Answer, StepFault>
    requires stands { CanStep S.model _store.now me.old }
    requires bounded { IsBounded me.old }
    requires fresh { out.old.acked ≡ None }
    ensures step { StepsJudged S.model (fetch_refusal (setup_of me.old) out.old range number) (λ s. on_fetch s range number s.role) _store.now me.old out.old
        _store.now me.new out.new result }
{
    if !range.fits(me.sectors.len() as u32) {
        return Err(StepFault::Refused(Refusal::BadRange));
    }
    if !is_serving(&me.role) {
        return Err(StepFault::Refused(Refusal::NotLeader));
    }
    let named = slots_before(alloc, me, &range)?;
    send_to_others(alloc, out, me.number, me.term, Body::Probe { number })?;
    me.reads.ask(number, range, named)?;
    Ok(Answer::Read(number))
}
