//! Servers stop, and begin again.
ghost use Rattle.std.specs.Prelude.{◌≡◌, ◌+◌, ◌<◌, ◌^◌, ℕ, suc, Bool, Result};
ghost use Rattle.pf_base.specs.declared.errors.NoMemory.{NoMemory as Wants};
ghost use Rattle.pf_protocol.specs.Servers.{Setup};
ghost use Rattle.pf_protocol.specs.declared.answers.Answer.{Answer as AnswerIs};
ghost use Rattle.pf_protocol.specs.declared.events.Event.TheVariants.{Stop};
ghost use Rattle.pf_group_network.specs.declared.network.Network.{Network as NetworkIs};
ghost use Rattle.pf_group_network.specs.Going.{GoesBack, GoesSomehow, HasGoneBy, HasPast, IsHonestAt, IsReached, IsToldAt, LeadsOn};
ghost use Rattle.pf_group_network.specs.Pasts.{CoversRestarts, GroupPast};

use crate::Network;
use pf_base::{NoMemory, ServerId};
use pf_protocol::Answer;
use pf_server_store::Store;
use std::alloc::Global;

impl<S: Store> Network<S> {
    /// A server stops, and loses what it had in memory. `Down` (51) where it does not run.
    pub fn stop(&mut self, server: ServerId) -> Answer
        requires server { server < 3 }
        requires reached { HasPast S.model self.old }
        ensures { HasGoneBy S.model (Stop server) self.old self.new result }
    {
        self.servers[server as usize].stop()
    }

    /// A server begins again from its disks; a running one is stopped first. Beside the answer it tells whether the record of a step
    /// that was cut off was found.
    ///
    /// `NotOurs` (42) where its disks hold no state of it, as where they could not be formatted: a running server is stopped then.
    /// `Halted` (52) where a disk failed: the server is stopped then. `NoMemory` (1) leaves the group as it was.
    pub fn restart(&mut self, alloc: Global, server: ServerId) -> Result<(Answer, bool), NoMemory>
        requires server { server < 3 }
        requires reached { HasPast S.model self.old }
        ensures told { (setup : Setup) (past : GroupPast) → IsReached S.model setup past self.old → IsToldAt S.model.told self.old server
            → IsHonestAt setup past.group server → GoesBack S.model setup past.group server self.old self.new result }
        // Over any disks, also those that tell nothing.
        ensures somehow { (setup : Setup) (past : GroupPast) → IsReached S.model setup past self.old
            → GoesSomehow S.model setup past.group server self.old self.new result }
    {
        self.servers[server as usize].restart(alloc)
    }
}

/// Whatever a restart comes to, over any disks, the network stands for the group of a viable past of the same open claims, if the past
/// before it covered what a restart takes up.
pub fn restarts_lead_on<S: Store>()
    ensures { (setup : Setup) (past : GroupPast) (old new : NetworkIs S) → IsReached S.model setup past old → suc past.count < 2 ^ 63 + 2 ^ 62 + 2 ^ 13
        → CoversRestarts past → (i : ℕ) → i < 3 → (result : Result (AnswerIs × Bool) Wants) → GoesSomehow S.model setup past.group i old new result
        → LeadsOn S.model setup past new }
{}
