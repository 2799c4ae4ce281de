//! A server stops, and begins again.
ghost use Rattle.std.specs.Prelude.{◌≡◌, ◌<◌, ◌^◌, suc, [], Err, IfOk, IsTrue, MatchOption, false};
ghost use Rattle.pf_protocol.specs.Servers.{Condition, Server as ServerIs, Running as RunningIs, Stopped as StoppedIs};
ghost use Rattle.pf_server.specs.Beginning.{IsLastLife, Restarts, doubt_after, last_found};
ghost use Rattle.pf_server.specs.Ending.{quieted};
ghost use Rattle.pf_server.specs.Conditions.{IsHonest, ServerIsInOrder, IsKnown, Meets, untaken_answers, state_runs};
ghost use Rattle.pf_server.specs.Turns.{BeginsAgain, BeginsSomehow, WasBegunIn};
ghost use Rattle.pf_server.specs.declared.state.State.TheVariants.{Runs as RunsState, Unformatted as UnformattedState};
ghost use Rattle.pf_server_memory.specs.Bounds.{far};

use crate::ends::forget;
use crate::{Doubt, Server, State};
use pf_base::NoMemory;
use pf_protocol::{Answer, Refusal};
use pf_server_memory::Running;
use pf_server_restart::{HalfReading, RestartFault, restart};
use pf_server_store::Store;
use std::alloc::Global;

/// The life that a server was in last and what is known of its last step, `None` exactly where it never ran.
fn last_life(state: &State) -> Option<(u64, Doubt)>
    ensures { MatchOption result (state.now ≡ UnformattedState) (λ last. IsLastLife state.now last.0 last.1) }
{
    match state {
        State::Runs(me) => Some((me.life, Doubt::Settled)),
        State::Stopped { life, doubt } => Some((*life, *doubt)),
        State::Unformatted => None,
    }
}

/// Whether the record of the last step was read.
fn is_found(doubt: Doubt, read: HalfReading) -> bool
    ensures { result ≡ last_found doubt read }
{
    match doubt {
        Doubt::Settled => false,
        Doubt::Open { used, generation } => !(read.used == used && read.generation == generation),
        Doubt::Read { found } => found,
    }
}

/// What is known of the last step after this was read.
fn known_after(doubt: Doubt, read: HalfReading) -> Doubt
    ensures { result ≡ doubt_after doubt read }
{
    match doubt {
        Doubt::Settled => Doubt::Settled,
        Doubt::Open {
            used: _,
            generation: _,
        } => Doubt::Read {
            found: is_found(doubt, read),
        },
        Doubt::Read { found } => Doubt::Read { found },
    }
}

/// Takes another state. (Apart, since the old one is let go here, whatever it was.)
fn take_state(state: &mut State, next: State)
    ensures { state.new ≡ next }
{
    *state = next;
}

/// The state of a server that runs. Answers that nobody took are dropped.
fn as_running(mut me: Running) -> State
    ensures { result ≡ RunsState (quieted me) }
{
    forget(&mut me.replies);
    State::Runs(me)
}

/// What comes of a restart after this life.
fn begin(
    state: &mut State,
    life: u64,
    doubt: Doubt,
    begun: Result<(Running, HalfReading), RestartFault>,
) -> Result<(Answer, bool), NoMemory>
    requires { life < far }
    ensures { Restarts life doubt state.old state.new begun result }
{
    match begun {
        Ok((me, read)) => {
            take_state(state, as_running(me));
            Ok((Answer::Done, is_found(doubt, read)))
        }
        Err(fault) => stay(state, life, doubt, fault),
    }
}

/// What comes of a restart after this life that failed.
fn stay(
    state: &mut State,
    life: u64,
    doubt: Doubt,
    fault: RestartFault,
) -> Result<(Answer, bool), NoMemory>
    requires { life < far }
    ensures { Restarts life doubt state.old state.new (Err fault) result }
{
    match fault {
        RestartFault::NoMemory => Err(NoMemory),
        RestartFault::ReadHalted => {
            let life = life + 1;
            take_state(state, State::Stopped { life, doubt });
            Ok((Answer::Refused(Refusal::Halted), false))
        }
        RestartFault::SaveHalted(read) => {
            let life = life + 1;
            let known = known_after(doubt, read);
            take_state(state, State::Stopped { life, doubt: known });
            Ok((Answer::Refused(Refusal::Halted), is_found(doubt, read)))
        }
        RestartFault::NotOurs => {
            if let State::Runs(_) = state {
                let life = life + 1;
                take_state(state, State::Stopped { life, doubt });
            }
            Ok((Answer::Refused(Refusal::NotOurs), false))
        }
    }
}

impl<S: Store> Server<S> {
    /// Stops the server. What it had in memory is lost, and its life counts one more. `Down` (51) where it does not run.
    pub fn stop(&mut self) -> Answer
        requires { ServerIsInOrder S.model self.old.seat self.old.store self.old.state }
        ensures step { (s : ServerIs) → Meets S.model self.old.seat self.old.store self.old.state (RunningIs s)
            → (result ≡ Answer.Done) × Meets S.model self.old.seat self.new.store self.new.state (StoppedIs (suc s.life) s.durable s.durable) }
        ensures down { state_runs self.old.state ≡ false → (result ≡ Answer.Refused Refusal.Down) × (self.new ≡ self.old) }
        ensures seat { self.new.seat ≡ self.old.seat }
        ensures store { self.new.store ≡ self.old.store }
    {
        let State::Runs(me) = &self.state else {
            return Answer::Refused(Refusal::Down);
        };
        let life = me.life + 1;
        self.idle = false;
        self.state = State::Stopped {
            life,
            doubt: Doubt::Settled,
        };
        Answer::Done
    }

    /// Begins the next life from the records, as a follower; a running server is stopped first. A half of the first format is saved
    /// anew in the second. Beside the answer it tells whether the record of a step that was cut off was found.
    ///
    /// `NotOurs` (42) where the disks could not be formatted as the group was made, or hold no state of this server, which never
    /// comes of disks that tell their content: a running server is stopped then. `Halted` (52) where a disk failed: the server is
    /// stopped then. `NoMemory` (1) leaves the server as it was, whatever its disks tell.
    pub fn restart(&mut self, alloc: Global) -> Result<(Answer, bool), NoMemory>
        requires { ServerIsInOrder S.model self.old.seat self.old.store self.old.state }
        ensures step { IsTrue (S.model.told self.old.store) → (c : Condition) → Meets S.model self.old.seat self.old.store self.old.state c
            → IsKnown self.old.seat c → IsHonest self.old.seat c → BeginsAgain S.model self.old.seat self.old.store self.new.store self.new.state c result }
        // Over any disks, also those that tell nothing.
        ensures somehow { (c : Condition) → Meets S.model self.old.seat self.old.store self.old.state c
            → BeginsSomehow S.model self.old.seat self.new.store self.new.state c result }
        ensures cause { IfOk result (λ r. r.0 ≡ Answer.Refused Refusal.Halted → S.model.rose self.old.store self.new.store) }
        ensures any_moment { IsTrue (S.model.told self.old.store) → (c : Condition) → Meets S.model self.old.seat self.old.store self.old.state c
            → WasBegunIn S.model.was self.old.store self.new.store c }
        ensures answers { untaken_answers self.old.state ≡ [] → untaken_answers self.new.state ≡ [] }
        ensures seat { self.new.seat ≡ self.old.seat }
        ensures told { S.model.told self.new.store ≡ S.model.told self.old.store }
    {
        let Some((life, doubt)) = last_life(&self.state) else {
            return Ok((Answer::Refused(Refusal::NotOurs), false));
        };
        self.idle = false;
        let begun = restart(alloc, &mut self.store, &self.seat, life + 1);
        begin(&mut self.state, life, doubt, begun)
    }
}
