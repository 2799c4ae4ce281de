//! What hosts ask of a server.
ghost use Rattle.std.specs.Prelude.{◌≡◌, None, Ok};
ghost use Rattle.pf_base.specs.Span.{IsWritable};
ghost use Rattle.pf_server_leader.specs.Submitting.{submit_refusal};
ghost use Rattle.pf_server_apply.specs.Fetching.{fetch_refusal};
ghost use Rattle.pf_protocol.specs.Answers.{IsSubmitted};
ghost use Rattle.pf_protocol.specs.Leading.{on_elect, on_fetch, on_resend, on_submit};
ghost use Rattle.pf_protocol.specs.Saving.{on_checkpoint};
ghost use Rattle.pf_protocol.specs.Servers.{Condition};
ghost use Rattle.pf_server_restart.specs.Beginning.{setup_of_seat};
ghost use Rattle.pf_server_memory.specs.Standing.{room_refusal};
ghost use Rattle.pf_server.specs.Conditions.{ServerIsInOrder, IsNextRead, Meets};
ghost use Rattle.pf_server.specs.Turns.{RefusesDown, TurnsBy};

use crate::ends::{end, note};
use crate::{Server, State};
use pf_base::{NoMemory, Range};
use pf_entry::Op;
use pf_protocol::{Answer, Refusal};
use pf_server_apply::{checkpoint, fetch};
use pf_server_leader::{elect, resend, submit};
use pf_server_memory::Outbox;
use pf_server_store::Store;
use std::alloc::Global;

impl<S: Store> Server<S> {
    /// A write of whole sectors or a mark is submitted. The answer is its slot.
    ///
    /// `Down` (51), then `OldFormat` (97), `BadRange` (10), `NotLeader` (50), `WindowFull` (30), `PacketsFull` (55) and `LogFull`
    /// (41), the first of them that holds, and `NoMemory` (1) leave the server as it was. `Halted` (52) where a disk failed.
    pub fn submit(&mut self, alloc: Global, op: Op, out: &mut Outbox) -> Result<Answer, NoMemory>
        requires order { ServerIsInOrder S.model self.old.seat self.old.store self.old.state }
        requires fresh { out.old.acked ≡ None }
        requires op { IsSubmitted op }
        ensures step { TurnsBy S.model (submit_refusal (setup_of_seat self.old.seat) out.old op) (λ s. on_submit (setup_of_seat self.old.seat) s op s.role)
            self.old self.new out.old out.new result }
        ensures down { RefusesDown self.old self.new result }
        ensures seat { self.new.seat ≡ self.old.seat }
        ensures told { S.model.told self.new.store ≡ S.model.told self.old.store }
    {
        let State::Runs(me) = &mut self.state else {
            return Ok(Answer::Refused(Refusal::Down));
        };
        self.idle = false;
        let before = note(me, &self.store);
        let ended = submit(alloc, &mut self.store, me, op, out);
        end(&mut self.state, before, ended)
    }

    /// A host asks for the sectors of a range. The answer is the number that the read was given, greater than those of all reads
    /// before it.
    ///
    /// `Down` (51), then `BadRange` (10), `NotLeader` (50) and `PacketsFull` (55), the first of them that holds, and `NoMemory` (1)
    /// leave the server as it was.
    pub fn fetch(
        &mut self,
        alloc: Global,
        range: Range,
        number: u64,
        out: &mut Outbox,
    ) -> Result<Answer, NoMemory>
        requires order { ServerIsInOrder S.model self.old.seat self.old.store self.old.state }
        requires fresh { out.old.acked ≡ None }
        requires range { IsWritable range.first range.count }
        requires next { (c : Condition) × Meets S.model self.old.seat self.old.store self.old.state c × IsNextRead c number }
        ensures step { TurnsBy S.model (fetch_refusal (setup_of_seat self.old.seat) out.old range number) (λ s. on_fetch s range number s.role) self.old
            self.new out.old out.new result }
        ensures down { RefusesDown self.old self.new result }
        ensures seat { self.new.seat ≡ self.old.seat }
        ensures told { S.model.told self.new.store ≡ S.model.told self.old.store }
    {
        let State::Runs(me) = &mut self.state else {
            return Ok(Answer::Refused(Refusal::Down));
        };
        self.idle = false;
        let before = note(me, &self.store);
        let ended = fetch(alloc, &self.store, me, range, number, out);
        end(&mut self.state, before, ended)
    }

    /// Calls an election. The answer is the term of the candidate.
    ///
    /// `Down` (51), then `PacketsFull` (55) and `LogFull` (41), the first of them that holds, and `NoMemory` (1) leave the server as
    /// it was. `Halted` (52) where a disk failed.
    pub fn elect(&mut self, alloc: Global, out: &mut Outbox) -> Result<Answer, NoMemory>
        requires order { ServerIsInOrder S.model self.old.seat self.old.store self.old.state }
        requires fresh { out.old.acked ≡ None }
        ensures step { TurnsBy S.model (λ s. room_refusal out.old (on_elect s)) on_elect self.old self.new out.old out.new result }
        ensures down { RefusesDown self.old self.new result }
        ensures seat { self.new.seat ≡ self.old.seat }
        ensures told { S.model.told self.new.store ≡ S.model.told self.old.store }
    {
        let State::Runs(me) = &mut self.state else {
            return Ok(Answer::Refused(Refusal::Down));
        };
        self.idle = false;
        let before = note(me, &self.store);
        let ended = elect(alloc, &mut self.store, me, out);
        end(&mut self.state, before, ended)
    }

    /// Sends again what the other servers may have missed.
    ///
    /// `Down` (51), then `PacketsFull` (55), and `NoMemory` (1) leave the server as it was.
    pub fn resend(&mut self, alloc: Global, out: &mut Outbox) -> Result<Answer, NoMemory>
        requires order { ServerIsInOrder S.model self.old.seat self.old.store self.old.state }
        requires fresh { out.old.acked ≡ None }
        ensures step { TurnsBy S.model (λ s. room_refusal out.old (on_resend s s.role)) (λ s. on_resend s s.role) self.old self.new out.old out.new result }
        ensures down { RefusesDown self.old self.new result }
        ensures seat { self.new.seat ≡ self.old.seat }
        ensures told { S.model.told self.new.store ≡ S.model.told self.old.store }
    {
        let State::Runs(me) = &mut self.state else {
            return Ok(Answer::Refused(Refusal::Down));
        };
        self.idle = false;
        let before = note(me, &self.store);
        let ended = resend(alloc, &self.store, me, out);
        end(&mut self.state, before, ended)
    }

    /// Takes a checkpoint. The answer is the checkpoint.
    ///
    /// `Down` (51), then `LogFull` (41) where the image does not fit a half, and `NoMemory` (1) leave the server as it was.
    /// `Halted` (52) where a disk failed.
    pub fn checkpoint(&mut self, alloc: Global, out: &mut Outbox) -> Result<Answer, NoMemory>
        requires order { ServerIsInOrder S.model self.old.seat self.old.store self.old.state }
        requires fresh { out.old.acked ≡ None }
        ensures step { TurnsBy S.model (λ s. room_refusal out.old (on_checkpoint s)) on_checkpoint self.old self.new out.old out.new result }
        ensures down { RefusesDown self.old self.new result }
        ensures seat { self.new.seat ≡ self.old.seat }
        ensures told { S.model.told self.new.store ≡ S.model.told self.old.store }
    {
        let State::Runs(me) = &mut self.state else {
            return Ok(Answer::Refused(Refusal::Down));
        };
        self.idle = false;
        let before = note(me, &self.store);
        let ended = checkpoint(alloc, &mut self.store, me);
        end(&mut self.state, before, ended)
    }
}
