//! An entry comes.
ghost use Rattle.std.specs.Prelude.{◌≡◌, None};
ghost use Rattle.std.specs.FinMap as finite;
ghost use Rattle.pf_entry.specs.Records.{Durable};
ghost use Rattle.pf_entry.specs.declared.packets.Body.TheVariants.{Ack as AckIs, Accept as AcceptIs};
ghost use Rattle.pf_protocol.specs.Servers.{upto};
ghost use Rattle.pf_protocol.specs.Following.{on_accept};
ghost use Rattle.pf_server_memory.specs.Standing.{server_of, setup_of, CanStep, IsBounded, IsCached, StepsBy};
ghost use Rattle.pf_server_follower.specs.Accepting.{case_at};
ghost use Rattle.pf_server_memory.specs.Coming.{IsComing};

use crate::replies::{meet_and_reply, reply, take_and_reply};
use pf_base::{ServerId, Slot};
use pf_entry::{Body, Entry};
use pf_protocol::Answer;
use pf_server_memory::{Outbox, Running, StepFault};
use pf_server_store::Store;
use std::alloc::Global;

/// What an entry meets at a server.
#[derive(Clone, Copy, Debug, PartialEq, Eq)]
pub enum AcceptCase {
    /// Its term is lower than the server's.
    Stale,
    /// The checkpoint has its slot.
    Below,
    /// Its slot is beyond the window.
    Beyond,
    /// The log has an entry of its slot and term.
    Held,
    New,
}

fn case_of(me: &Running, entry: &Entry) -> AcceptCase
    ensures { result ≡ case_at me.now.term me.now.log.base (finite.get me.now.log.entries entry.now.slot) entry.now }
{
    if entry.term < me.term {
        return AcceptCase::Stale;
    }
    if entry.slot <= me.log.base() {
        return AcceptCase::Below;
    }
    if me.log.room(entry.slot).is_err() {
        return AcceptCase::Beyond;
    }
    if me.log.holds(entry.slot, entry.term) {
        return AcceptCase::Held;
    }
    AcceptCase::New
}

/// The acknowledgement of a slot, with how far all is applied.
pub fn ack(me: &Running, slot: Slot) -> Body
    requires { (d : Durable) × IsCached d me.now }
    ensures { (d : Durable) → IsCached d me.now → result ≡ AckIs slot (upto (server_of d me.now)) }
{
    Body::Ack {
        slot,
        upto: me.upto(),
    }
}

/// A leader proposes an entry. It is answered with `Nack` where its term is lower than the server's, and not at all where its
/// slot is more than 4,096 above the checkpoint; else with `Ack`. It is stored with its term, and the server becomes a
/// follower, where its slot is above the checkpoint and the log has no entry of its slot and term.
///
/// `NoMemory` (1) where there is no memory, `PacketsFull` (55) where the answer does not fit the outbox, and `LogFull` (41)
/// where the record does not fit the current half, leave the server and the store as they were. `Halted` (52) where a disk
/// failed: a restart finds the record or not.
pub fn accept<S: Store>(
    alloc: Global,
    store: &mut S,
    me: &mut Running,
    from: ServerId,
    entry: Entry,
    out: &mut Outbox,
) -> Result<Answer, StepFault>
    requires stands { CanStep S.model store.old me.old }
    requires bounded { IsBounded me.old }
    requires fresh { out.old.acked ≡ None }
    requires coming { IsComing me.old from entry.term (AcceptIs entry) }
    ensures step { StepsBy S.model (λ s. on_accept (setup_of me.old) s from entry) store.old me.old out.old store.new me.new out.new result }
{
    let slot = entry.slot;
    match case_of(me, &entry) {
        AcceptCase::Stale => {
            let term = me.term;
            reply(alloc, store, me, from, term, Body::Nack, out)
        }
        AcceptCase::Below => {
            let body = ack(me, slot);
            meet_and_reply(alloc, store, me, from, entry.term, body, out)
        }
        AcceptCase::Beyond => Ok(Answer::Done),
        AcceptCase::Held => {
            let term = me.term;
            let body = ack(me, slot);
            reply(alloc, store, me, from, term, body, out)
        }
        AcceptCase::New => {
            let body = ack(me, slot);
            take_and_reply(alloc, store, me, from, entry, body, out)
        }
    }
}
