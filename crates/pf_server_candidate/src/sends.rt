//! Merged entries are sent.
ghost use Rattle.std.specs.Prelude.{◌<◌};
ghost use Rattle.pf_entry.specs.Lists.{Every};
ghost use Rattle.pf_entry.specs.declared.packets.Body.TheVariants.{Accept as AcceptIs};
ghost use Rattle.pf_server_memory.specs.Outgoing.{Sends};
ghost use Rattle.pf_server_memory.specs.Packets.{AreCanonical};
ghost use Rattle.pf_server_candidate.specs.Merging.{accepts};

use pf_base::{ServerId, Term};
use pf_entry::Entry;
use pf_server_memory::{Outbox, StepFault, send_accept_to_others};
use std::alloc::Global;

/// Sends the entries, each to the two other servers.
pub fn send_entries(
    alloc: Global,
    out: &mut Outbox,
    me: ServerId,
    term: Term,
    entries: &[Entry],
) -> Result<(), StepFault>
    requires me { me < 3 }
    requires canonical { Every (λ e. AreCanonical me term (AcceptIs e)) entries.now }
    ensures { Sends out.old out.new (accepts me term entries.now) result }
{
    for entry in entries {
        send_accept_to_others(alloc, out, me, term, entry)?;
    }
    Ok(())
}
