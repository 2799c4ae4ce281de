//! A probe comes.
ghost use Rattle.std.specs.Prelude.{◌≡◌, None};
ghost use Rattle.pf_entry.specs.declared.packets.Body.TheVariants.{Probe as ProbeIs};
ghost use Rattle.pf_protocol.specs.Following.{on_probe};
ghost use Rattle.pf_server_memory.specs.Standing.{CanStep, StepsBy};
ghost use Rattle.pf_server_memory.specs.Coming.{IsComing};

use crate::replies::reply;
use pf_base::{ServerId, Term};
use pf_entry::Body;
use pf_protocol::Answer;
use pf_server_memory::{Outbox, Running, StepFault};
use pf_server_store::Store;
use std::alloc::Global;

/// A leader asks whether it still leads. The answer is `Nack` where the server's term is higher, and else `ProbeOk` of the
/// probe's term. Nothing is stored.
///
/// `NoMemory` (1) where there is no memory, and `PacketsFull` (55) where the answer does not fit the outbox.
pub fn probe<S: Store>(
    alloc: Global,
    store: &S,
    me: &Running,
    from: ServerId,
    term: Term,
    number: u64,
    out: &mut Outbox,
) -> Result<Answer, StepFault>
    requires stands { CanStep S.model store.now me.now }
    requires fresh { out.old.acked ≡ None }
    requires coming { IsComing me.now from term (ProbeIs number) }
    ensures step { StepsBy S.model (λ s. on_probe s from term number) store.now me.now out.old store.now me.now out.new result }
{
    if term < me.term {
        return reply(alloc, store, me, from, me.term, Body::Nack, out);
    }
    let upto = me.upto();
    reply(
        alloc,
        store,
        me,
        from,
        term,
        Body::ProbeOk { number, upto },
        out,
    )
}
