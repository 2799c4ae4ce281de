//! Packets come, or are lost.
ghost use Rattle.std.specs.Prelude.{◌≡◌, ◌<◌, ◌≤◌, ℕ, IfOk, Some, cond, slice_get, slice_set, true, vec_capacity, vec_len};
ghost use Rattle.pf_entry.specs.Canonical.{IsCanonicalPacket};
ghost use Rattle.pf_entry.specs.declared.packets.Packet.{Packet as PacketIs};
ghost use Rattle.pf_wire.specs.Packets.{packet_bytes, PacketFitsWords};
ghost use Rattle.pf_protocol.specs.declared.events.Event.TheVariants.{Deliver, Lose};
ghost use Rattle.pf_group_network.specs.declared.kept.Parcel.{Parcel as ParcelIs};
ghost use Rattle.pf_group_network.specs.Deliveries.{is_delivery_answer};
ghost use Rattle.pf_group_network.specs.Going.{GoesBy, HasGoneBy, HasPast};

use crate::{Network, Parcel};
use pf_base::NoMemory;
use pf_codec::Spelled;
use pf_entry::Packet;
use pf_protocol::{Answer, Refusal};
use pf_server_store::Store;
use pf_wire::decode;
use std::alloc::Global;

/// The packet that was sent as these bytes.
fn packet_of(alloc: Global, bytes: &Spelled) -> Result<Packet, NoMemory>
    ensures { (p : PacketIs) → PacketFitsWords p → IsCanonicalPacket p → packet_bytes p ≡ bytes.now → IfOk result (λ packet. packet ≡ p) }
{
    match decode(alloc, bytes) {
        Ok(packet) => Ok(packet),
        Err(_) => Err(NoMemory),
    }
}

/// Whether a delivery that came to this counts as one of its packet.
fn is_delivery(outcome: &Result<Answer, NoMemory>) -> bool
    ensures { result ≡ is_delivery_answer outcome.now }
{
    match outcome {
        Ok(Answer::Refused(Refusal::Halted)) => true,
        Ok(Answer::Refused(Refusal::Down)) => true,
        Ok(Answer::Refused(_)) => false,
        Ok(_) => true,
        Err(_) => false,
    }
}

/// Makes a packet a delivered one, where it was delivered.
fn set_delivered(packets: &mut Vec<Parcel>, place: usize, outcome: &Result<Answer, NoMemory>)
    requires { place < vec_len packets.old }
    ensures items { (parcel : ParcelIs) → slice_get packets.old.items place ≡ Some parcel
        → packets.new.items ≡ cond (is_delivery_answer outcome.now) (slice_set packets.old.items place (record parcel { delivered = true })) packets.old.items }
    ensures capacity { vec_capacity packets.old ≤ vec_capacity packets.new }
{
    if is_delivery(outcome) {
        packets[place].delivered = true;
    }
}

impl<S: Store> Network<S> {
    /// Packet `k` of all that were sent comes, perhaps once more.
    ///
    /// `NoPacket` (53) where there is none, `LostPacket` (54) where it was lost, then `PacketsFull` (55) and `LogFull` (41), the first
    /// of them that holds, and `NoMemory` (1) leave the group as it was. `Down` (51) where its server does not run, and `Halted` (52)
    /// where a disk failed: both make the packet a delivered one.
    pub fn deliver(&mut self, alloc: Global, k: u32) -> Result<Answer, NoMemory>
        requires { HasPast S.model self.old }
        ensures { GoesBy S.model (Deliver k) self.old self.new result }
    {
        let place = k as usize;
        if place >= self.packets.len() {
            return Ok(Answer::Refused(Refusal::NoPacket));
        }
        if self.packets[place].lost {
            return Ok(Answer::Refused(Refusal::LostPacket));
        }
        let packet = packet_of(alloc, &self.packets[place].bytes)?;
        let to = packet.to;
        self.acked.reserve()?;
        let mut out = self.outbox(alloc);
        let outcome = self.servers[to as usize].receive(alloc, packet, &mut out);
        let outcome = self.end(to, outcome, &mut out);
        set_delivered(&mut self.packets, place, &outcome);
        outcome
    }

    /// Packet `k` of all that were sent is lost; it was perhaps delivered before.
    ///
    /// `NoPacket` (53) where there is none, and `LostPacket` (54) where it was lost before, leave the group as it was.
    pub fn lose(&mut self, k: u32) -> Answer
        requires { HasPast S.model self.old }
        ensures { HasGoneBy S.model (Lose k) self.old self.new result }
    {
        let place = k as usize;
        if place >= self.packets.len() {
            return Answer::Refused(Refusal::NoPacket);
        }
        if self.packets[place].lost {
            return Answer::Refused(Refusal::LostPacket);
        }
        self.packets[place].lost = true;
        Answer::Done
    }
}
