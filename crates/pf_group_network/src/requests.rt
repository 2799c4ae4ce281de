//! What hosts ask.
ghost use Rattle.std.specs.Prelude.{◌≡◌, ◌<◌};
ghost use Rattle.pf_base.specs.Span.{IsWritable};
ghost use Rattle.pf_protocol.specs.Answers.{IsSubmitted};
ghost use Rattle.pf_protocol.specs.declared.events.Event.TheVariants.{Fetch, Submit};
ghost use Rattle.pf_group_network.specs.Readings.{readings_with};
ghost use Rattle.pf_group_network.specs.Unread.{ReadingsHaveRoom};
ghost use Rattle.pf_group_network.specs.Going.{GoesBy, HasPast};

use crate::{Network, ReadTable};
use pf_base::{NoMemory, Range, ServerId};
use pf_entry::Op;
use pf_protocol::Answer;
use pf_server_store::Store;
use std::alloc::Global;

/// The next read waits, where the answer is its number. It takes no memory.
fn note_read(readings: &mut ReadTable, outcome: &Result<Answer, NoMemory>)
    requires { ReadingsHaveRoom readings.old }
    ensures { readings.new.items ≡ readings_with readings.old.items outcome.now }
{
    match outcome {
        Ok(Answer::Read(_)) => readings.push(),
        Ok(_) => {}
        Err(_) => {}
    }
}

impl<S: Store> Network<S> {
    /// A host hands a write of whole sectors, or a mark, to a server. The answer is its slot.
    ///
    /// `Down` (51), then `OldFormat` (97), `BadRange` (10), `NotLeader` (50), `WindowFull` (30), `PacketsFull` (55) and `LogFull`
    /// (41), the first of them that holds, and `NoMemory` (1) leave the group as it was. `Halted` (52) where a disk failed: the
    /// server is stopped, and its next restart finds the entry or not.
    pub fn submit(&mut self, alloc: Global, server: ServerId, op: Op) -> Result<Answer, NoMemory>
        requires server { server < 3 }
        requires op { IsSubmitted op }
        requires reached { HasPast S.model self.old }
        ensures { GoesBy S.model (Submit server op) self.old self.new result }
    {
        self.acked.reserve()?;
        let mut out = self.outbox(alloc);
        let outcome = self.servers[server as usize].submit(alloc, op, &mut out);
        self.end(server, outcome, &mut out)
    }

    /// A host asks a server for the sectors of a range. The answer is the number of the read.
    ///
    /// `Down` (51), then `BadRange` (10), `NotLeader` (50) and `PacketsFull` (55), the first of them that holds, and `NoMemory` (1)
    /// leave the group as it was.
    pub fn fetch(
        &mut self,
        alloc: Global,
        server: ServerId,
        range: Range,
    ) -> Result<Answer, NoMemory>
        requires server { server < 3 }
        requires range { IsWritable range.first range.count }
        requires reached { HasPast S.model self.old }
        ensures { GoesBy S.model (Fetch server range) self.old self.new result }
    {
        self.readings.reserve()?;
        self.acked.reserve()?;
        let mut out = self.outbox(alloc);
        let number = self.readings.count() as u64;
        let outcome = self.servers[server as usize].fetch(alloc, range, number, &mut out);
        note_read(&mut self.readings, &outcome);
        self.end(server, outcome, &mut out)
    }
}
