//! What a step leaves beside the servers.
ghost use Rattle.std.specs.Prelude.{◌≡◌, ◌+◌, ◌<◌, ◌≤◌, [], ◌∷◌, ◌++◌, length, map, sum_by, vec_capacity, vec_len};
ghost use Rattle.std.specs.Option.{option_to_list};
ghost use Rattle.pf_protocol.specs.Servers.{Server as ServerIs, Running as RunningIs};
ghost use Rattle.pf_server.specs.Conditions.{AreSized, Meets, untaken_answers};
ghost use Rattle.pf_group_network.specs.AckedSlots.{AckedHasRoom};
ghost use Rattle.pf_group_network.specs.Keeping.{HavePlaces, fresh_parcel, with_answers};
ghost use Rattle.pf_group_network.specs.declared.kept.Acked.{Acked as AckedHere};

use crate::{Acked, AckedList, Parcel, ReadTable};
use pf_base::{Slot, Term};
use pf_server::Server;
use pf_server_memory::Outbox;
use pf_server_store::Store;

/// Puts a value at the end of a list that has room for it.
pub fn put<T: Drop>(list: &mut Vec<T>, value: T)
    requires { vec_len list.old < vec_capacity list.old }
    ensures items { list.new.items ≡ list.old.items ++ value ∷ [] }
    ensures len { vec_len list.new ≡ vec_len list.old + 1 }
    ensures capacity { vec_capacity list.old ≤ vec_capacity list.new }
{
    let _ = list.push(value);
}

/// Moves the packets of a step behind those that were sent before. It takes no memory.
pub fn keep_packets(packets: &mut Vec<Parcel>, byte_room: &mut u64, out: &mut Outbox)
    requires places { vec_len packets.old + length out.old.packets ≤ vec_capacity packets.old }
    requires bytes { sum_by length out.old.packets ≤ byte_room.old }
    ensures packets { packets.new.items ≡ packets.old.items ++ map fresh_parcel out.old.packets }
    ensures len { vec_len packets.old ≤ vec_len packets.new }
    ensures capacity { vec_capacity packets.old ≤ vec_capacity packets.new }
    ensures room { byte_room.new + sum_by length out.old.packets ≡ byte_room.old }
    ensures acked { out.new.acked ≡ out.old.acked }
{
    while let Some(bytes) = out.take() {
        *byte_room -= bytes.len() as u64;
        put(
            packets,
            Parcel {
                bytes,
                delivered: false,
                lost: false,
            },
        );
    }
}

/// The term of a running server; 0 where it does not run.
fn term_of<S: Store>(server: &Server<S>) -> Term
    ensures { (s : ServerIs) → Meets S.model server.now.seat server.now.store server.now.state (RunningIs s) → result ≡ s.durable.term }
{
    match server.running() {
        Some(me) => me.term,
        None => 0,
    }
}

/// Keeps the slot that a step of this server acknowledged, if it did. It takes no memory.
pub fn keep_acked<S: Store>(acked: &mut AckedList, server: &Server<S>, slot: Option<Slot>)
    requires { AckedHasRoom acked.old.list acked.old.known }
    ensures { (s : ServerIs) → Meets S.model server.now.seat server.now.store server.now.state (RunningIs s)
        → acked.new.list.items ≡ acked.old.list.items ++ map (λ k. (let a : AckedHere = record { term = s.durable.term; slot = k } in a))
        (option_to_list slot) }
{
    let term = term_of(server);
    if let Some(slot) = slot {
        acked.push(Acked { term, slot });
    }
}

/// Moves the answers of a step's reads to their numbers. It takes no memory.
pub fn keep_answers<S: Store>(server: &mut Server<S>, readings: &mut ReadTable)
    requires sized { AreSized (untaken_answers server.old.state) }
    requires places { HavePlaces readings.old.items (untaken_answers server.old.state) }
    ensures readings { readings.new.items ≡ with_answers readings.old.items (untaken_answers server.old.state) }
    ensures same { (s : ServerIs) → Meets S.model server.old.seat server.old.store server.old.state (RunningIs s)
        → Meets S.model server.new.seat server.new.store server.new.state (RunningIs s) }
    ensures seat { server.new.seat ≡ server.old.seat }
    ensures store { server.new.store ≡ server.old.store }
{
    while let Some((number, sectors)) = server.take_answered() {
        readings.answer(number, sectors);
    }
}
