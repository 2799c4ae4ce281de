//! What a group shows of one server. Where its disks tell their content, that is of the state after its history.
ghost use Rattle.std.specs.Prelude.{◌≡◌, ◌<◌, IsTrue};
ghost use Rattle.pf_group_network.specs.Shown.{IsMemoryOf};
ghost use Rattle.pf_group.specs.GroupIs.{state_of};
ghost use Rattle.pf_group.specs.Readers.{ServerTells};

use crate::{Down, Group};
use pf_base::{ServerId, Term};
use pf_disk::Disk;
use pf_server_memory::Running;

impl<D: Disk> Group<D> {
    /// What the server has in memory. `Down` (51) exactly where it does not run.
    pub fn running(&self, server: ServerId) -> Result<&Running, Down>
        requires { server < 3 }
        ensures { IsTrue self.now.told → ServerTells (state_of self.now) server result (λ me s. IsMemoryOf me.now s) }
    {
        self.network.running(server).ok_or(Down)
    }

    /// The term of the server. `Down` (51) exactly where it does not run.
    pub fn term_of(&self, server: ServerId) -> Result<Term, Down>
        requires { server < 3 }
        ensures { IsTrue self.now.told → ServerTells (state_of self.now) server result (λ term s. term ≡ s.durable.term) }
    {
        Ok(self.running(server)?.term)
    }
}
