//! Jobs of a server, and answers of its reads.
ghost use Rattle.std.specs.Prelude.{◌≡◌, ◌≢◌, [], ◌∷◌, ℕ, Err, IfNone, IfSome, None, Ok, false};
ghost use Rattle.pf_entry.specs.Records.{Durable};
ghost use Rattle.pf_server_apply.specs.Jobs.{IsJobOf};
ghost use Rattle.pf_protocol.specs.Saving.{on_finish, on_give_back};
ghost use Rattle.pf_protocol.specs.Servers.{Condition, Server as ServerIs, Running as RunningIs};
ghost use Rattle.pf_server_memory.specs.Standing.{server_of, IsBounded, IsCached};
ghost use Rattle.pf_server.specs.Conditions.{AreSized, BringsBack, ServerIsInOrder, Meets, untaken_answers, state_runs};
ghost use Rattle.pf_server.specs.Ending.{AsksHere, WasAnswered, quieted};
ghost use Rattle.pf_server.specs.Idle.{found_none};
ghost use Rattle.pf_server.specs.Turns.{Claims, ComesInMemory, finish_refusal};
ghost use Rattle.pf_server.specs.declared.state.Doubt.{Doubt as DoubtIs};

use crate::ends::{answer_reads, forget, forget_answers};
use crate::{Server, State};
use pf_base::{Data, Filled, NoMemory, Slot};
use pf_entry::Job;
use pf_protocol::{Answer, Refusal};
use pf_server_apply::{claim, finish, give_back};
use pf_server_memory::Running;
use pf_server_store::Store;
use std::alloc::Global;

/// A job comes back done to a running server.
fn end_job(me: &mut Running, filled: Filled) -> Answer
    requires cached { (d : Durable) × IsCached d me.old }
    requires bounded { IsBounded me.old }
    requires job { filled.life ≡ me.old.life → IsJobOf me.old filled }
    requires asks { AsksHere me.old }
    ensures stale { filled.life ≢ me.old.life → (result ≡ Answer.Refused (Refusal.Stale me.old.life)) × (me.new ≡ quieted me.old) }
    ensures done { filled.life ≡ me.old.life → (result ≡ Answer.Done) × ((d : Durable) → IsCached d me.old
        → WasAnswered d me.old me.new (on_finish (server_of d me.old) filled.life filled.slot).server) }
{
    if filled.life != me.life {
        forget(&mut me.replies);
        return Answer::Refused(Refusal::Stale(me.life));
    }
    let _ = finish(me, filled);
    answer_reads(me);
    Answer::Done
}

/// A job comes back undone to a running server.
fn end_undone(me: &mut Running, life: u64, slot: Slot)
    requires cached { (d : Durable) × IsCached d me.old }
    requires asks { AsksHere me.old }
    ensures { (d : Durable) → IsCached d me.old → WasAnswered d me.old me.new (on_give_back (server_of d me.old) life slot).server }
{
    let _ = give_back(me, life, slot);
    answer_reads(me);
}

/// Whether a claim found no slot.
fn found_none(claimed: &Result<Option<Job>, NoMemory>) -> bool
    ensures { result ≡ found_none claimed.now }
{
    match claimed {
        Ok(None) => true,
        Ok(Some(_)) => false,
        Err(_) => false,
    }
}

impl<S: Store> Server<S> {
    /// Claims the least slot that is committed, not applied, not in hand and free. `None` exactly where there is none, or where the
    /// server does not run. What the end of the job needs of memory is taken here.
    ///
    /// `NoMemory` (1) leaves the server as it was.
    pub fn claim(&mut self, alloc: Global) -> Result<Option<Job>, NoMemory>
        requires { ServerIsInOrder S.model self.old.seat self.old.store self.old.state }
        ensures step { (s : ServerIs) → Meets S.model self.old.seat self.old.store self.old.state (RunningIs s)
            → Claims S.model self.old.seat self.new.store self.new.state s result }
        ensures down { state_runs self.old.state ≡ false → (result ≡ Ok None) × (self.new ≡ self.old) }
        ensures seat { self.new.seat ≡ self.old.seat }
        ensures store { self.new.store ≡ self.old.store }
    {
        let State::Runs(me) = &mut self.state else {
            return Ok(None);
        };
        if self.idle {
            forget_answers(&mut self.state);
            return Ok(None);
        }
        let claimed = claim(alloc, me);
        self.idle = found_none(&claimed);
        forget_answers(&mut self.state);
        claimed
    }

    /// A job comes back done, and its op is applied. It takes no memory.
    ///
    /// `Stale` (61) where the job is of another life, with the life that the server has now; `Down` (51) where the server never
    /// ran. Both leave the server as it was.
    pub fn finish(&mut self, filled: Filled) -> Answer
        requires order { ServerIsInOrder S.model self.old.seat self.old.store self.old.state }
        requires job { (c : Condition) × Meets S.model self.old.seat self.old.store self.old.state c × BringsBack c filled }
        ensures step { (s : ServerIs) → Meets S.model self.old.seat self.old.store self.old.state (RunningIs s)
            → ComesInMemory S.model self.old.seat self.new.store self.new.state s (finish_refusal s filled.life) (on_finish s filled.life filled.slot) result }
        ensures stopped { (life : ℕ) (doubt : DoubtIs) → self.old.state ≡ State.Stopped life doubt
            → (result ≡ Answer.Refused (Refusal.Stale life)) × (self.new ≡ self.old) }
        ensures unformatted { self.old.state ≡ State.Unformatted → (result ≡ Answer.Refused Refusal.Down) × (self.new ≡ self.old) }
        ensures seat { self.new.seat ≡ self.old.seat }
        ensures store { self.new.store ≡ self.old.store }
    {
        match &mut self.state {
            State::Runs(me) => {
                self.idle = false;
                end_job(me, filled)
            }
            State::Stopped { life, doubt: _ } => Answer::Refused(Refusal::Stale(*life)),
            State::Unformatted => Answer::Refused(Refusal::Down),
        }
    }

    /// A job comes back undone, and its slot can be claimed again. A job of another life changes nothing. It takes no memory.
    pub fn give_back(&mut self, life: u64, slot: Slot)
        requires { ServerIsInOrder S.model self.old.seat self.old.store self.old.state }
        ensures step { (s : ServerIs) → Meets S.model self.old.seat self.old.store self.old.state (RunningIs s)
            → ComesInMemory S.model self.old.seat self.new.store self.new.state s None (on_give_back s life slot) Answer.Done }
        ensures down { state_runs self.old.state ≡ false → self.new ≡ self.old }
        ensures seat { self.new.seat ≡ self.old.seat }
        ensures store { self.new.store ≡ self.old.store }
    {
        if let State::Runs(me) = &mut self.state {
            self.idle = false;
            end_undone(me, life, slot);
        }
    }

    /// Takes out the first answer of a read that the last step gave: the read's number and the sectors of its range. `None` exactly
    /// where none is left.
    pub fn take_answered(&mut self) -> Option<(u64, Data)>
        requires { AreSized (untaken_answers self.old.state) }
        ensures none { IfNone result ((untaken_answers self.old.state ≡ []) × (self.new ≡ self.old)) }
        ensures first { IfSome result (λ answer. untaken_answers self.old.state ≡ answer ∷ untaken_answers self.new.state) }
        ensures same { (s : ServerIs) → Meets S.model self.old.seat self.old.store self.old.state (RunningIs s)
            → Meets S.model self.new.seat self.new.store self.new.state (RunningIs s) }
        ensures seat { self.new.seat ≡ self.old.seat }
        ensures store { self.new.store ≡ self.old.store }
    {
        match &mut self.state {
            State::Runs(me) => {
                let (number, sectors) = me.replies.take()?;
                self.idle = false;
                Some((number, Data::from_sectors(sectors)))
            }
            State::Stopped { life: _, doubt: _ } => None,
            State::Unformatted => None,
        }
    }
}
