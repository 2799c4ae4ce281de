//! A packet comes.
ghost use Rattle.std.specs.Prelude.{◌≡◌, None, Ok};
ghost use Rattle.pf_protocol.specs.Rows.{on_packet};
ghost use Rattle.pf_server_restart.specs.Beginning.{setup_of_seat};
ghost use Rattle.pf_server_memory.specs.Coming.{IsComing};
ghost use Rattle.pf_server_memory.specs.Standing.{setup_of, room_refusal, CanStep, IsBounded, StepsBy};
ghost use Rattle.pf_server.specs.Conditions.{IsFor, ServerIsInOrder};
ghost use Rattle.pf_server.specs.Turns.{RefusesDown, TurnsBy};

use crate::ends::{end, note};
use crate::{Server, State};
use pf_base::NoMemory;
use pf_entry::{Body, Packet};
use pf_protocol::{Answer, Refusal};
use pf_server_apply::probe_ok;
use pf_server_candidate::vote;
use pf_server_follower::{accept, commit, image, nack, probe, request_vote};
use pf_server_leader::ack;
use pf_server_memory::{Outbox, Running, StepFault};
use pf_server_store::Store;
use std::alloc::Global;

/// Carries out the row of a packet that comes to a running server.
fn take_packet<S: Store>(
    alloc: Global,
    store: &mut S,
    me: &mut Running,
    packet: Packet,
    out: &mut Outbox,
) -> Result<Answer, StepFault>
    requires stands { CanStep S.model store.old me.old }
    requires bounded { IsBounded me.old }
    requires fresh { out.old.acked ≡ None }
    requires coming { IsComing me.old packet.from packet.term packet.body }
    ensures { StepsBy S.model (λ s. on_packet (setup_of me.old) s packet) store.old me.old out.old store.new me.new out.new result }
{
    let Packet {
        from,
        to: _,
        term,
        body,
    } = packet;
    match body {
        Body::RequestVote { base } => request_vote(alloc, store, me, from, term, base, out),
        Body::Vote(log) => vote(alloc, store, me, from, term, log, out),
        Body::Accept(entry) => accept(alloc, store, me, from, entry, out),
        Body::Ack { slot, upto } => ack(alloc, store, me, from, term, slot, upto, out),
        Body::Nack => nack(alloc, store, me, term),
        Body::Commit { slot } => commit(store, me, term, slot),
        Body::Probe { number } => probe(alloc, store, me, from, term, number, out),
        Body::ProbeOk { number, upto } => probe_ok(alloc, store, me, from, term, number, upto),
        Body::Image {
            base,
            applied,
            sectors,
        } => image(alloc, store, me, from, term, base, applied, sectors, out),
    }
}

impl<S: Store> Server<S> {
    /// A packet comes to this server.
    ///
    /// `Down` (51), then `PacketsFull` (55) and `LogFull` (41), the first of them that holds, and `NoMemory` (1) leave the server as
    /// it was. `Halted` (52) where a disk failed.
    pub fn receive(
        &mut self,
        alloc: Global,
        packet: Packet,
        out: &mut Outbox,
    ) -> Result<Answer, NoMemory>
        requires order { ServerIsInOrder S.model self.old.seat self.old.store self.old.state }
        requires fresh { out.old.acked ≡ None }
        requires packet { IsFor self.old.seat packet }
        ensures step { TurnsBy S.model (λ s. room_refusal out.old (on_packet (setup_of_seat self.old.seat) s packet))
            (λ s. on_packet (setup_of_seat self.old.seat) s packet) self.old self.new out.old out.new result }
        ensures down { RefusesDown self.old self.new result }
        ensures seat { self.new.seat ≡ self.old.seat }
        ensures told { S.model.told self.new.store ≡ S.model.told self.old.store }
    {
        let State::Runs(me) = &mut self.state else {
            return Ok(Answer::Refused(Refusal::Down));
        };
        self.idle = false;
        let before = note(me, &self.store);
        let ended = take_packet(alloc, &mut self.store, me, packet, out);
        end(&mut self.state, before, ended)
    }
}
