//! What a server shows.
ghost use Rattle.std.specs.Prelude.{◌≡◌, false, MatchOption};
ghost use Rattle.pf_server.specs.Conditions.{state_runs};

use crate::{Server, State};
use pf_server_memory::Running;
use pf_server_store::Store;

impl<S: Store> Server<S> {
    /// Whether the server runs.
    pub fn is_running(&self) -> bool
        ensures { result ≡ state_runs self.now.state }
    {
        match &self.state {
            State::Runs(_) => true,
            State::Stopped { life: _, doubt: _ } => false,
            State::Unformatted => false,
        }
    }

    /// What a running server has in memory, `None` exactly where it does not run.
    pub fn running(&self) -> Option<&Running>
        ensures { MatchOption result (state_runs self.now.state ≡ false) (λ me. self.now.state ≡ State.Runs me.now) }
    {
        match &self.state {
            State::Runs(me) => Some(me),
            State::Stopped { life: _, doubt: _ } => None,
            State::Unformatted => None,
        }
    }
}
