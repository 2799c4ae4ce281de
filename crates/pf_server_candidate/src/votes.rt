//! A vote comes.
ghost use Rattle.std.specs.Prelude.{◌≡◌, ◌≤◌, MatchOption, None};
ghost use Rattle.pf_entry.specs.declared.entries.VoteLog.{VoteLog as VoteIs};
ghost use Rattle.pf_entry.specs.declared.packets.Body.TheVariants.{Vote as VoteBody};
ghost use Rattle.pf_protocol.specs.Leading.{on_vote};
ghost use Rattle.pf_server_memory.specs.Coming.{IsComing};
ghost use Rattle.pf_server_memory.specs.Standing.{quiet, CanStep, IsBounded, StepsBy, StepsQuietly};
ghost use Rattle.pf_server_candidate.specs.Merging.{Elects, VoteIsIdle, TakeoverIsReady, IsTakeover, won};

use crate::leads::lead;
use crate::merges::{Takeover, plan};
use crate::sends::send_entries;
use pf_base::{ServerId, Term};
use pf_entry::VoteLog;
use pf_protocol::Answer;
use pf_server_memory::{Outbox, Role, Running, StepFault, add_merged};
use pf_server_store::Store;
use std::alloc::Global;

/// The own vote of a candidate that this vote makes a leader, `None` exactly where it changes nothing.
fn own_vote<'a>(me: &'a Running, term: Term, vote: &VoteLog) -> Option<&'a VoteLog>
    ensures { MatchOption result (VoteIsIdle me.now term vote.now) (λ own. Elects me.now term vote.now own.now) }
{
    let Role::Candidate(candidacy) = &me.role else {
        return None;
    };
    if term != me.term || me.log.base() < vote.base {
        return None;
    }
    Some(candidacy.own())
}

/// Stores the merge and becomes a leader, and sends nothing.
fn store_merge<S: Store>(
    alloc: Global,
    store: &mut S,
    me: &mut Running,
    takeover: Takeover,
) -> Result<Answer, StepFault>
    requires stands { CanStep S.model store.old me.old }
    requires ready { TakeoverIsReady me.old (S.model.format store.old) takeover }
    requires room { 1 ≤ me.old.starts.spare }
    ensures { (own vote : VoteIs) → IsTakeover me.old own vote takeover
        → StepsQuietly S.model (λ s. quiet (won s own vote)) store.old me.old store.new me.new result }
{
    add_merged(alloc, store, me.term, takeover.first, &takeover.entries)?;
    lead(me, takeover);
    Ok(Answer::Done)
}

/// Sends the merged entries, stores them, and becomes a leader.
fn take_over<S: Store>(
    alloc: Global,
    store: &mut S,
    me: &mut Running,
    takeover: Takeover,
    out: &mut Outbox,
) -> Result<Answer, StepFault>
    requires stands { CanStep S.model store.old me.old }
    requires fresh { out.old.acked ≡ None }
    requires ready { TakeoverIsReady me.old (S.model.format store.old) takeover }
    ensures { (own vote : VoteIs) → IsTakeover me.old own vote takeover
        → StepsBy S.model (λ s. won s own vote) store.old me.old out.old store.new me.new out.new result }
{
    me.starts.reserve()?;
    send_entries(alloc, out, me.number, me.term, &takeover.entries)?;
    store_merge(alloc, store, me, takeover)
}

/// Another server gives its vote. A candidate of that term, whose checkpoint is no lower than the vote's, merges its own vote with
/// this one: it stores the merged entries and its first new slot, sends each of them to the two other servers, and leads. It
/// serves at once where it merged no slot. Any other server does nothing.
///
/// `NoMemory` (1), `PacketsFull` (55) and `LogFull` (41) leave the server and the store as they were; after `Halted` (52) a
/// restart finds the merge or not.
pub fn vote<S: Store>(
    alloc: Global,
    store: &mut S,
    me: &mut Running,
    from: ServerId,
    term: Term,
    vote: VoteLog,
    out: &mut Outbox,
) -> Result<Answer, StepFault>
    requires stands { CanStep S.model store.old me.old }
    requires bounded { IsBounded me.old }
    requires fresh { out.old.acked ≡ None }
    requires coming { IsComing me.old from term (VoteBody vote) }
    ensures step { StepsBy S.model (λ s. on_vote s term vote s.role) store.old me.old out.old store.new me.new out.new result }
{
    let Some(own) = own_vote(me, term, &vote) else {
        return Ok(Answer::Done);
    };
    let takeover = plan(alloc, me, own, &vote)?;
    take_over(alloc, store, me, takeover, out)
}
