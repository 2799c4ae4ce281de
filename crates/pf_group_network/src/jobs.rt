//! Jobs.
ghost use Rattle.std.specs.Prelude.{◌≡◌, ◌<◌};
ghost use Rattle.pf_protocol.specs.Servers.{Setup};
ghost use Rattle.pf_group_network.specs.Pasts.{GroupPast};
ghost use Rattle.pf_protocol.specs.declared.events.Event.TheVariants.{Claim, Finish, GiveBack};
ghost use Rattle.pf_group_network.specs.Claiming.{ClaimsAt};
ghost use Rattle.pf_group_network.specs.Going.{GoesBy, HasGoneBy, HasPast, IsBroughtBack, IsReached, KeepsStores};
ghost use Rattle.pf_group_network.specs.Showing.{taken_of};

use crate::Network;
use crate::ends::is_refused;
use crate::keeping::keep_answers;
use pf_base::{Filled, NoMemory, ServerId, Slot};
use pf_entry::Job;
use pf_protocol::{Answer, Refusal};
use pf_server_store::Store;
use std::alloc::Global;

impl<S: Store> Network<S> {
    /// The job of one server; `None` exactly where it has none.
    fn claim_at(&mut self, alloc: Global, server: ServerId) -> Result<Option<Job>, NoMemory>
        requires server { server < 3 }
        requires reached { HasPast S.model self.old }
        ensures step { (setup : Setup) (past : GroupPast) → IsReached S.model setup past self.old → ClaimsAt S.model setup past.group server self.new result }
        ensures stores { KeepsStores self.old self.new }
        ensures taken { taken_of self.new ≡ taken_of self.old }
    {
        self.servers[server as usize].claim(alloc)
    }

    /// A job of the least server that has one is claimed: its least slot that is committed, not applied, not in hand and free.
    ///
    /// `NoneFree` (60) where no server has one, and `NoMemory` (1), leave the group as it was.
    pub fn claim(&mut self, alloc: Global) -> Result<Answer, NoMemory>
        requires { HasPast S.model self.old }
        ensures { GoesBy S.model Claim self.old self.new result }
    {
        if let Some(job) = self.claim_at(alloc, 0)? {
            return Ok(Answer::Job(job));
        }
        if let Some(job) = self.claim_at(alloc, 1)? {
            return Ok(Answer::Job(job));
        }
        if let Some(job) = self.claim_at(alloc, 2)? {
            return Ok(Answer::Job(job));
        }
        Ok(Answer::Refused(Refusal::NoneFree))
    }

    /// An open claim's job comes back done, and its op is applied. It takes no memory.
    ///
    /// `Stale` (61) where the job is of another life, with the life that its server has now, and `Down` (51) where the server never
    /// ran, leave the group as it was.
    pub fn finish(&mut self, filled: Filled) -> Answer
        requires server { filled.server < 3 }
        requires job { (setup : Setup) × ((past : GroupPast) × IsBroughtBack S.model setup past self.old filled) }
        ensures { HasGoneBy S.model (Finish filled.server filled.life filled.slot) self.old self.new result }
    {
        let server = filled.server as usize;
        let answer = self.servers[server].finish(filled);
        if is_refused(&answer) {
            return answer;
        }
        keep_answers(&mut self.servers[server], &mut self.readings);
        answer
    }

    /// A job of this life of the server comes back undone, and its slot can be claimed again. A job of another life changes nothing. It
    /// takes no memory.
    pub fn give_back(&mut self, server: ServerId, life: u64, slot: Slot) -> Answer
        requires server { server < 3 }
        requires reached { HasPast S.model self.old }
        ensures { HasGoneBy S.model (GiveBack server life slot) self.old self.new result }
    {
        let server = server as usize;
        if !self.servers[server].is_running() {
            return Answer::Done;
        }
        self.servers[server].give_back(life, slot);
        keep_answers(&mut self.servers[server], &mut self.readings);
        Answer::Done
    }
}
