//! What comes of an event.
ghost use Rattle.std.specs.Prelude.{◌≡◌, ◌<◌, OnErr};
ghost use Rattle.pf_protocol.specs.Answers.{IsSubmitted};
ghost use Rattle.pf_protocol.specs.Servers.{Setup};
ghost use Rattle.pf_protocol.specs.declared.events.Event.TheVariants.{Submit};
ghost use Rattle.pf_group_network.specs.Pasts.{GroupPast};
ghost use Rattle.pf_group_network.specs.Going.{HasPast, IsHonestAt, IsReached, IsToldAt};
ghost use Rattle.pf_group.specs.Events.{MayWant};
ghost use Rattle.pf_group.specs.Reacting.{Comes, ComesBack, ComesBackSomehow, RestartIsTold, MayReact, Reacts, ReactsSomehow, happened_as};

use crate::GroupEvent;
use pf_base::{NoMemory, ServerId};
use pf_entry::Op;
use pf_group_network::Network;
use pf_protocol::{Answer, Event, Happening};
use pf_server_store::Store;
use std::alloc::Global;

/// An event with its answer, where there was memory for it.
fn happened(event: Event, answer: Result<Answer, NoMemory>) -> Result<Happening, NoMemory>
    ensures { result ≡ happened_as event answer }
{
    match answer {
        Ok(answer) => Ok(Happening { event, answer }),
        Err(fault) => Err(fault),
    }
}

/// A host hands on a write or a mark.
fn submit<S: Store>(
    network: &mut Network<S>,
    alloc: Global,
    server: ServerId,
    op: Op,
) -> Result<Happening, NoMemory>
    requires server { server < 3 }
    requires op { IsSubmitted op }
    requires reached { HasPast S.model network.old }
    ensures { (setup : Setup) (past : GroupPast) → IsReached S.model setup past network.old
        → Comes S.model setup past.group (Submit server op) network.old network.new result }
{
    let kept = op.try_clone()?;
    let answer = network.submit(alloc, server, op)?;
    Ok(Happening {
        event: Event::Submit { server, op: kept },
        answer,
    })
}

/// A server begins again.
fn restart<S: Store>(
    network: &mut Network<S>,
    alloc: Global,
    server: ServerId,
) -> Result<Happening, NoMemory>
    requires server { server < 3 }
    requires reached { HasPast S.model network.old }
    ensures told { (setup : Setup) (past : GroupPast) → IsReached S.model setup past network.old → IsToldAt S.model.told network.old server
        → IsHonestAt setup past.group server → ComesBack S.model setup past.group server network.old network.new result }
    ensures somehow { (setup : Setup) (past : GroupPast) → IsReached S.model setup past network.old
        → ComesBackSomehow S.model setup past.group server network.old network.new result }
{
    let (answer, found) = network.restart(alloc, server)?;
    Ok(Happening {
        event: Event::Restart { server, found },
        answer,
    })
}

/// Carries out an event.
pub fn react<S: Store>(
    network: &mut Network<S>,
    alloc: Global,
    event: GroupEvent,
) -> Result<Happening, NoMemory>
    requires { MayReact S.model network.old event }
    ensures step { (setup : Setup) (past : GroupPast) → IsReached S.model setup past network.old → RestartIsTold S.model.told setup past.group network.old event
        → Reacts S.model setup past.group event network.old network.new result }
    ensures somehow { (setup : Setup) (past : GroupPast) → IsReached S.model setup past network.old
        → ReactsSomehow S.model setup past.group event network.old network.new result }
    ensures sure { OnErr result (MayWant event) }
{
    match event {
        GroupEvent::Submit {
            server,
            range,
            payload,
        } => submit(network, alloc, server, Op::Write { range, payload }),
        GroupEvent::Mark(server) => submit(network, alloc, server, Op::Mark),
        GroupEvent::Fetch { server, range } => happened(
            Event::Fetch { server, range },
            network.fetch(alloc, server, range),
        ),
        GroupEvent::Deliver(k) => happened(Event::Deliver(k), network.deliver(alloc, k)),
        GroupEvent::Lose(k) => happened(Event::Lose(k), Ok(network.lose(k))),
        GroupEvent::Elect(server) => happened(Event::Elect(server), network.elect(alloc, server)),
        GroupEvent::Resend(server) => happened(
            Event::Resend(server),
            network.resend(alloc, server),
        ),
        GroupEvent::Stop(server) => happened(Event::Stop(server), Ok(network.stop(server))),
        GroupEvent::Restart(server) => restart(network, alloc, server),
        GroupEvent::Claim => happened(Event::Claim, network.claim(alloc)),
        GroupEvent::Finish(filled) => {
            let event = Event::Finish {
                server: filled.server,
                life: filled.life,
                slot: filled.slot,
            };
            happened(event, Ok(network.finish(filled)))
        }
        GroupEvent::Checkpoint(server) => {
            happened(Event::Checkpoint(server), network.checkpoint(alloc, server))
        }
    }
}
