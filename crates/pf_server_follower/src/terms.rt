//! A higher term comes.
ghost use Rattle.std.specs.Prelude.{◌≡◌, None};
ghost use Rattle.pf_protocol.specs.Following.{on_nack};
ghost use Rattle.pf_server_memory.specs.Standing.{CanStep, StepsQuietly};

use crate::replies::raise;
use pf_base::Term;
use pf_protocol::Answer;
use pf_server_memory::{Running, StepFault};
use pf_server_store::Store;
use std::alloc::Global;

/// Another server tells its term. Where it is higher than the server's it is stored, and the server becomes a follower. Nothing
/// is sent.
///
/// `NoMemory` (1) where there is no memory, and `LogFull` (41) where the term's record does not fit the current half, leave the
/// server and the store as they were. `Halted` (52) where a disk failed: a restart finds the term or not.
pub fn nack<S: Store>(
    alloc: Global,
    store: &mut S,
    me: &mut Running,
    term: Term,
) -> Result<Answer, StepFault>
    requires stands { CanStep S.model store.old me.old }
    ensures step { StepsQuietly S.model (λ s. on_nack s term) store.old me.old store.new me.new result }
{
    if term <= me.term {
        return Ok(Answer::Done);
    }
    raise(alloc, store, me, term)
}
