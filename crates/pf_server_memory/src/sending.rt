//! Sending to the other servers.
ghost use Rattle.std.specs.Prelude.{◌≡◌, ◌≢◌, ◌<◌, [], ◌∷◌};
ghost use Rattle.pf_entry.specs.Canonical.{IsCanonicalPacket};
ghost use Rattle.pf_entry.specs.declared.packets.Body.TheVariants.{Accept as AcceptIs};
ghost use Rattle.pf_protocol.specs.Outcomes.{other_servers};
ghost use Rattle.pf_server_memory.specs.Outgoing.{Sends};
ghost use Rattle.pf_server_memory.specs.Packets.{packet, packets_to, AreCanonical};

use crate::{Outbox, StepFault};
use pf_base::{ServerId, Term};
use pf_entry::{Body, Entry, Packet};
use std::alloc::Global;

/// Sends one packet.
pub fn send(
    alloc: Global,
    out: &mut Outbox,
    me: ServerId,
    to: ServerId,
    term: Term,
    body: Body,
) -> Result<(), StepFault>
    requires { IsCanonicalPacket (packet me to term body) }
    ensures { Sends out.old out.new (packet me to term body ∷ []) result }
{
    let packet = Packet {
        from: me,
        to,
        term,
        body,
    };
    out.push(alloc, &packet)
}

/// The two other servers, in ascending order.
pub fn others_of(me: ServerId) -> (ServerId, ServerId)
    requires { me < 3 }
    ensures both { other_servers me ≡ result.0 ∷ result.1 ∷ [] }
    ensures first { (result.0 < 3) × (result.0 ≢ me) }
    ensures second { (result.1 < 3) × (result.1 ≢ me) }
{
    match me {
        0 => (1, 2),
        1 => (0, 2),
        _ => (0, 1),
    }
}

/// Sends one body to the two other servers, to the lesser first.
pub fn send_to_others(
    alloc: Global,
    out: &mut Outbox,
    me: ServerId,
    term: Term,
    body: Body,
) -> Result<(), StepFault>
    requires me { me < 3 }
    requires canonical { AreCanonical me term body }
    ensures { Sends out.old out.new (packets_to me term body) result }
{
    let (first, second) = others_of(me);
    send(alloc, out, me, first, term, body)?;
    out.push_again(alloc, second)
}

/// Sends an Accept of this entry to the two other servers, to the lesser first.
pub fn send_accept_to_others(
    alloc: Global,
    out: &mut Outbox,
    me: ServerId,
    term: Term,
    entry: &Entry,
) -> Result<(), StepFault>
    requires me { me < 3 }
    requires canonical { AreCanonical me term (AcceptIs entry.now) }
    ensures { Sends out.old out.new (packets_to me term (AcceptIs entry.now)) result }
{
    let (first, second) = others_of(me);
    out.push_accept(alloc, me, first, term, entry)?;
    out.push_again(alloc, second)
}
