//! What keeps a group going: elections, packets that may have been missed, and checkpoints.
ghost use Rattle.std.specs.Prelude.{◌≡◌, ◌<◌};
ghost use Rattle.pf_protocol.specs.declared.events.Event.TheVariants.{Checkpoint, Elect, Resend};
ghost use Rattle.pf_group_network.specs.Elections.{elections_after};
ghost use Rattle.pf_group_network.specs.Going.{GoesBy, HasPast};

use crate::Network;
use pf_base::{NoMemory, ServerId};
use pf_protocol::{Answer, Refusal};
use pf_server_store::Store;
use std::alloc::Global;

/// The most elections of a group.
const MOST_ELECTIONS: u32 = 64;

/// One election more, where it took place.
fn count_election(elections: &mut u32, outcome: &Result<Answer, NoMemory>)
    requires { elections.old < 64 }
    ensures { elections.new ≡ elections_after elections.old outcome.now }
{
    match outcome {
        Ok(Answer::Refused(Refusal::Halted)) => *elections += 1,
        Ok(Answer::Refused(_)) => {}
        Ok(_) => *elections += 1,
        Err(_) => {}
    }
}

impl<S: Store> Network<S> {
    /// A server stands for election. The answer is its term.
    ///
    /// `Down` (51), then `ElectionsFull` (56) where the group had 64 elections, `PacketsFull` (55) and `LogFull` (41), the first of
    /// them that holds, and `NoMemory` (1) leave the group as it was. `Halted` (52) where a disk failed: the server is stopped, its
    /// next restart finds the term or not, and the election counts.
    pub fn elect(&mut self, alloc: Global, server: ServerId) -> Result<Answer, NoMemory>
        requires server { server < 3 }
        requires reached { HasPast S.model self.old }
        ensures { GoesBy S.model (Elect server) self.old self.new result }
    {
        if !self.servers[server as usize].is_running() {
            return Ok(Answer::Refused(Refusal::Down));
        }
        if self.elections >= MOST_ELECTIONS {
            return Ok(Answer::Refused(Refusal::ElectionsFull));
        }
        self.acked.reserve()?;
        let mut out = self.outbox(alloc);
        let outcome = self.servers[server as usize].elect(alloc, &mut out);
        let outcome = self.end(server, outcome, &mut out);
        count_election(&mut self.elections, &outcome);
        outcome
    }

    /// A server sends again what others may have missed.
    ///
    /// `Down` (51), then `PacketsFull` (55), and `NoMemory` (1) leave the group as it was.
    pub fn resend(&mut self, alloc: Global, server: ServerId) -> Result<Answer, NoMemory>
        requires server { server < 3 }
        requires reached { HasPast S.model self.old }
        ensures { GoesBy S.model (Resend server) self.old self.new result }
    {
        self.acked.reserve()?;
        let mut out = self.outbox(alloc);
        let outcome = self.servers[server as usize].resend(alloc, &mut out);
        self.end(server, outcome, &mut out)
    }

    /// A server takes a checkpoint. The answer is its checkpoint.
    ///
    /// `Down` (51), then `LogFull` (41) where the image does not fit a half, and `NoMemory` (1) leave the group as it was.
    /// `Halted` (52) where a disk failed: the server is stopped, and its next restart finds the new image or not.
    pub fn checkpoint(&mut self, alloc: Global, server: ServerId) -> Result<Answer, NoMemory>
        requires server { server < 3 }
        requires reached { HasPast S.model self.old }
        ensures { GoesBy S.model (Checkpoint server) self.old self.new result }
    {
        self.acked.reserve()?;
        let mut out = self.outbox(alloc);
        let outcome = self.servers[server as usize].checkpoint(alloc, &mut out);
        self.end(server, outcome, &mut out)
    }
}
