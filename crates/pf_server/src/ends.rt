//! How a step of a running server ends.
ghost use Rattle.std.specs.Prelude.{◌≡◌, ◌<◌, ◌^◌, [], IfOk, length, map};
ghost use Rattle.pf_entry.specs.Records.{Durable};
ghost use Rattle.pf_protocol.specs.Asked.{AreAsked};
ghost use Rattle.pf_server_memory.specs.Bounds.{far};
ghost use Rattle.pf_server_memory.specs.Standing.{server_of, read_in_memory, IsCached};
ghost use Rattle.pf_server.specs.Ending.{StateAnswers, CanAnswerIn, StepEnds, WasAnswered, forgotten};

use crate::state::{Doubt, State};
use pf_base::NoMemory;
use pf_protocol::{Answer, Refusal};
use pf_server_apply::settle;
use pf_server_memory::{Replies, Running, StepFault};
use pf_server_store::Store;

/// What is known of a running server as a step of it begins.
#[derive(Clone, Copy, Debug, PartialEq, Eq)]
pub struct Before {
    pub life: u64,
    /// The used bytes of its half.
    pub used: u64,
    pub generation: u64,
}

/// Notes what is known of the server as a step of it begins.
pub fn note<S: Store>(me: &Running, store: &S) -> Before
    ensures { result ≡ record { life = me.now.life; used = S.model.used store.now; generation = me.now.generation } }
{
    Before {
        life: me.life,
        used: store.used_bytes(),
        generation: me.generation,
    }
}

/// Drops the answers that nobody took. Their memory is kept.
pub fn forget(replies: &mut Replies)
    ensures { replies.new ≡ record replies.old { answers = [] } }
{
    while let Some(_) = replies.take() {}
}

/// Answers the reads that are ready. Each step of a running server ends with it. Answers of earlier steps that nobody took are
/// dropped.
pub fn answer_reads(me: &mut Running)
    requires cached { (d : Durable) × IsCached d me.old }
    requires asked { AreAsked (length me.old.sectors) (map read_in_memory me.old.reads) }
    ensures { (d : Durable) → IsCached d me.old → WasAnswered d me.old me.new (server_of d me.old) }
{
    forget(&mut me.replies);
    settle(me);
}

/// Answers the reads that are ready, of a running server.
fn answer_reads_in(state: &mut State)
    requires { CanAnswerIn state.old }
    ensures { StateAnswers state.old state.new }
{
    match state {
        State::Runs(me) => answer_reads(me),
        State::Stopped { life: _, doubt: _ } => {}
        State::Unformatted => {}
    }
}

/// Drops the answers that nobody took of a running server.
pub fn forget_answers(state: &mut State)
    ensures { state.new ≡ forgotten state.old }
{
    if let State::Runs(me) = state {
        forget(&mut me.replies);
    }
}

/// What comes of a step at a running server. The reads that it made ready are answered; where it was not done, its server is as it
/// was, but for answers that nobody took, or is stopped where a disk failed.
///
/// `NoMemory` (1) is the step's own.
pub fn end(
    state: &mut State,
    before: Before,
    ended: Result<Answer, StepFault>,
) -> Result<Answer, NoMemory>
    requires life { before.life < far }
    requires answerable { IfOk ended (λ answer. CanAnswerIn state.old) }
    ensures { StepEnds before state.old state.new ended result }
{
    match ended {
        Ok(answer) => {
            answer_reads_in(state);
            Ok(answer)
        }
        Err(StepFault::NoMemory) => {
            forget_answers(state);
            Err(NoMemory)
        }
        Err(StepFault::Refused(refusal)) => {
            forget_answers(state);
            Ok(Answer::Refused(refusal))
        }
        Err(StepFault::Halted) => {
            *state = State::Stopped {
                life: before.life + 1,
                doubt: Doubt::Open {
                    used: before.used,
                    generation: before.generation,
                },
            };
            Ok(Answer::Refused(Refusal::Halted))
        }
    }
}
