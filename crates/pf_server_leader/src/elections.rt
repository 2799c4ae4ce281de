//! An election is called.
ghost use Rattle.std.specs.Prelude.{◌≡◌, ◌<◌, [], None};
ghost use Rattle.pf_entry.specs.Records.{vote_of};
ghost use Rattle.pf_protocol.specs.Leading.{on_elect};
ghost use Rattle.pf_server_leader.specs.Electing.{elected};
ghost use Rattle.pf_server_memory.specs.Standing.{state_in_memory, quiet, CanStep, IsBounded, StepsBy, StepsQuietly};

use pf_base::Term;
use pf_election::{Candidacy, Probes};
use pf_entry::{Body, Record, VoteLog};
use pf_protocol::Answer;
use pf_server_memory::{Outbox, Role, Running, StepFault, add, send_to_others, vote_of};
use pf_server_store::Store;
use std::alloc::Global;

/// Takes over a term, as a candidate with its own vote. A candidate has no reads.
fn run(alloc: Global, me: &mut Running, term: Term, vote: VoteLog)
    requires { me.old.number < 3 }
    ensures { me.new ≡ record me.old { term = term; role = Role.Candidate (record { number = me.old.number; own = vote; other = None }); reads = [] } }
{
    me.term = term;
    me.role = Role::Candidate(Candidacy::new(me.number, vote));
    me.reads = Probes::new(alloc);
}

/// Stores a higher term, as a candidate with the server's own vote, and sends nothing.
fn stand<S: Store>(
    alloc: Global,
    store: &mut S,
    me: &mut Running,
    term: Term,
    vote: VoteLog,
) -> Result<Answer, StepFault>
    requires stands { CanStep S.model store.old me.old }
    requires vote { vote ≡ vote_of (state_in_memory me.old) }
    ensures { StepsQuietly S.model (λ s. quiet (elected s term)) store.old me.old store.new me.new result }
{
    add(alloc, store, &Record::Term(term))?;
    run(alloc, me, term, vote);
    Ok(Answer::Term(term))
}

/// Calls an election: the server stores the next term, becomes a candidate in it with its own vote, and asks the two other
/// servers for theirs. The answer is the term.
///
/// `NoMemory` (1), `PacketsFull` (55) and `LogFull` (41) leave the server and the store as they were; after `Halted` (52) a
/// restart finds the record or not.
pub fn elect<S: Store>(
    alloc: Global,
    store: &mut S,
    me: &mut Running,
    out: &mut Outbox,
) -> Result<Answer, StepFault>
    requires stands { CanStep S.model store.old me.old }
    requires bounded { IsBounded me.old }
    requires fresh { out.old.acked ≡ None }
    ensures step { StepsBy S.model on_elect store.old me.old out.old store.new me.new out.new result }
{
    let term = me.term + 1;
    let vote = vote_of(alloc, me)?;
    let body = Body::RequestVote {
        base: me.log.base(),
    };
    send_to_others(alloc, out, me.number, term, body)?;
    stand(alloc, store, me, term, vote)
}
