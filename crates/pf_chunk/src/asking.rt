//! Lines that write and read sectors.
ghost use Rattle.std.specs.Prelude.{◌≡◌, ◌<◌, ◌++◌, IfOk, IfSome, IsSome, IsTrue, OnErr, slice_get};
ghost use Rattle.std.specs.Option.{option_to_list};
ghost use Rattle.pf_group_rounds.specs.pf_group.specs.GroupIs.{state_of};
ghost use Rattle.pf_protocol.specs.declared.answers.Answer.TheVariants.{Read};
ghost use Rattle.pf_report.specs.Texts.{answer_text};
ghost use Rattle.pf_chunk.specs.Asked.{ChunkMayAsk, asked_happened};
ghost use Rattle.pf_chunk.specs.Asking.{fetches, no_range_answer, chunk_submits};
ghost use Rattle.pf_chunk.specs.Steps.{EventHasFailed, HasHappened};
ghost use Rattle.pf_chunk.specs.Telling.{read_taken_up};
ghost use Rattle.pf_chunk.specs.Views.{ChunkIsReady, run_of};

use crate::{ChunkGroup, LineAsk, Waiting, WritableRange};
use pf_base::{Data, NoMemory, Payload, ServerId};
use pf_chunk_waiting::WaitingReads;
use pf_disk::Disk;
use pf_group_copy::{Gate, Workers};
use pf_group_rounds::pf_group::GroupEvent;
use pf_protocol::{Answer, Refusal};
use std::thread::Threads;

/// Keeps a read, if there is one. There is room for it.
fn keep(waiting: &mut WaitingReads, read: Option<Waiting>)
    requires { 0 < waiting.old.places }
    ensures { waiting.new.items ≡ waiting.old.items ++ option_to_list read }
{
    if let Some(read) = read {
        waiting.push(read);
    }
}

impl<D: Disk + Drop> ChunkGroup<D> {
    /// The read that an answer of the server tells of, if it was taken up.
    fn taken_up(&self, server: ServerId, answer: &Answer) -> Option<Waiting>
        requires { server < 3 }
        ensures of { IfSome result (λ one. (one.server ≡ server) × (answer.now ≡ Read one.number)) }
        ensures read { IsTrue self.now.group.told → result ≡ read_taken_up (slice_get (state_of self.now.group).servers server) server answer.now }
    {
        let Answer::Read(number) = answer else {
            return None;
        };
        match self.group.term_of(server) {
            Ok(term) => Some(Waiting {
                number: *number,
                server,
                term,
            }),
            Err(_) => None,
        }
    }

    /// How a line is refused whose numbers are no range, which is no event: `BadRange` (10) at a running server, else `Down` (51).
    pub fn no_range(&self, server: ServerId) -> Answer
        requires { server < 3 }
        ensures said { IsSome (answer_text result) }
        ensures answer { IsTrue self.now.group.told → result ≡ no_range_answer (slice_get (state_of self.now.group).servers server) }
    {
        match self.group.term_of(server) {
            Ok(_) => Answer::Refused(Refusal::BadRange),
            Err(_) => Answer::Refused(Refusal::Down),
        }
    }

    /// What a line asks for, and then what that made free is applied. A line for each read of a line that was answered is put at the end of
    /// `out`, by the reads' numbers.
    ///
    /// After `NoMemory` (1) the group stands after its last whole step, with no job in hand: a beginning of what would have happened.
    pub fn ask<R: Threads + Sync, G: Gate + Sync>(
        &mut self,
        workers: &Workers<'_, R, G>,
        asked: LineAsk,
        out: &mut Vec<u8>,
    ) -> Result<Answer, NoMemory>
        requires ready { ChunkIsReady self.old }
        requires asked { ChunkMayAsk asked }
        ensures went { IfOk result (λ answer. HasHappened (λ halts c. asked_happened halts asked c) self.old out.old.items answer out.new.items self.new) }
        ensures err { OnErr result (EventHasFailed (λ halts. (asked_happened halts asked (run_of halts self.old)).chunk.group) self.old.group self.new.group) }
    {
        match asked {
            LineAsk::Event(event) => self.happen(workers, event, out),
            LineAsk::Submit {
                server,
                range,
                byte,
            } => self.submit(workers, server, range, byte, out),
            LineAsk::Fetch { server, range } => self.fetch(workers, server, range, out),
            LineAsk::NoRange(server) => Ok(self.no_range(server)),
        }
    }

    /// A line that writes the sectors of a range, all of one byte.
    fn submit<R: Threads + Sync, G: Gate + Sync>(
        &mut self,
        workers: &Workers<'_, R, G>,
        server: ServerId,
        range: WritableRange,
        byte: u8,
        out: &mut Vec<u8>,
    ) -> Result<Answer, NoMemory>
        requires ready { ChunkIsReady self.old }
        requires server { server < 3 }
        ensures went { IfOk result (λ answer. HasHappened (λ halts c. chunk_submits halts server range.first byte range.count c) self.old out.old.items answer
            out.new.items self.new) }
        ensures err { OnErr result (EventHasFailed (λ halts. (chunk_submits halts server range.first byte range.count (run_of halts self.old)).chunk.group)
            self.old.group self.new.group) }
    {
        let range = range.range();
        let filled = Data::filled(workers.alloc, byte, range.count())?;
        let payload = Payload::new(workers.alloc, filled)?;
        let event = GroupEvent::Submit {
            server,
            range,
            payload,
        };
        self.happen(workers, event, out)
    }

    /// A line that reads the sectors of a range.
    fn fetch<R: Threads + Sync, G: Gate + Sync>(
        &mut self,
        workers: &Workers<'_, R, G>,
        server: ServerId,
        range: WritableRange,
        out: &mut Vec<u8>,
    ) -> Result<Answer, NoMemory>
        requires ready { ChunkIsReady self.old }
        requires server { server < 3 }
        ensures went { IfOk result (λ answer. HasHappened (λ halts c. fetches halts server range.first range.count c) self.old out.old.items answer
            out.new.items self.new) }
        ensures err { OnErr result (EventHasFailed (λ halts. (fetches halts server range.first range.count (run_of halts self.old)).chunk.group) self.old.group
            self.new.group) }
    {
        let range = range.range();
        self.waiting.reserve()?;
        let answer = self
            .group
            .step(workers.alloc, GroupEvent::Fetch { server, range })?;
        let read = self.taken_up(server, &answer);
        keep(&mut self.waiting, read);
        self.follow(workers, out)?;
        Ok(answer)
    }
}
