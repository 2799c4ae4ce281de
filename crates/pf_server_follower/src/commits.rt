//! A commit comes.
ghost use Rattle.std.specs.Prelude.{◌≡◌, None};
ghost use Rattle.pf_protocol.specs.Following.{on_commit};
ghost use Rattle.pf_server_memory.specs.Standing.{CanStep, StepsQuietly};

use pf_base::{Slot, Term};
use pf_protocol::Answer;
use pf_server_memory::{Running, StepFault};
use pf_server_store::Store;

/// A leader tells that the slot's entry of this term is chosen. The slot is committed exactly where the log has that
/// entry. Nothing is sent or stored, and it cannot fail.
pub fn commit<S: Store>(
    _store: &S,
    me: &mut Running,
    term: Term,
    slot: Slot,
) -> Result<Answer, StepFault>
    requires stands { CanStep S.model _store.now me.old }
    ensures step { StepsQuietly S.model (λ s. on_commit s term slot) _store.now me.old _store.now me.new result }
{
    me.log.commit(slot, term);
    Ok(Answer::Done)
}
