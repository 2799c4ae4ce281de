//! A candidate asks for a vote.
ghost use Rattle.std.specs.Prelude.{◌≡◌, None};
ghost use Rattle.pf_entry.specs.declared.packets.Body.TheVariants.{RequestVote as RequestVoteIs};
ghost use Rattle.pf_protocol.specs.Following.{on_request_vote};
ghost use Rattle.pf_server_memory.specs.Standing.{CanStep, IsBounded, StepsBy};
ghost use Rattle.pf_server_memory.specs.Coming.{IsComing};

use crate::replies::{raise_and_reply, reply};
use pf_base::{ServerId, Slot, Term};
use pf_entry::Body;
use pf_protocol::Answer;
use pf_server_memory::{Outbox, Running, StepFault, vote_of};
use pf_server_store::Store;
use std::alloc::Global;

/// A candidate asks for a vote. The answer is `Nack` where its term is no higher than the server's or its checkpoint is lower;
/// else the term is stored, the server becomes a follower, and the answer is `Vote` with all that it holds.
///
/// `NoMemory` (1) where there is no memory, `PacketsFull` (55) where the answer does not fit the outbox, and `LogFull` (41)
/// where the term's record does not fit the current half, leave the server and the store as they were. `Halted` (52) where a
/// disk failed: a restart finds the term or not.
pub fn request_vote<S: Store>(
    alloc: Global,
    store: &mut S,
    me: &mut Running,
    from: ServerId,
    term: Term,
    base: Slot,
    out: &mut Outbox,
) -> Result<Answer, StepFault>
    requires stands { CanStep S.model store.old me.old }
    requires bounded { IsBounded me.old }
    requires fresh { out.old.acked ≡ None }
    requires coming { IsComing me.old from term (RequestVoteIs base) }
    ensures step { StepsBy S.model (λ s. on_request_vote s from term base) store.old me.old out.old store.new me.new out.new result }
{
    if term <= me.term || base < me.log.base() {
        let term = me.term;
        return reply(alloc, store, me, from, term, Body::Nack, out);
    }
    let vote = vote_of(alloc, me)?;
    raise_and_reply(alloc, store, me, from, term, Body::Vote(vote), out)
}
