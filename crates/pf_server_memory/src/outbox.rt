//! What a step sends.
ghost use Rattle.std.specs.Prelude.{◌≡◌, ◌<◌, [], ◌∷◌, ◌++◌, IfErr, IfNone, IfSome, None, OnErr, OnOk, Some};
ghost use Rattle.pf_entry.specs.Canonical.{IsCanonicalPacket};
ghost use Rattle.pf_entry.specs.declared.packets.Body.TheVariants.{Accept as AcceptIs, Image as ImageIs};
ghost use Rattle.pf_entry.specs.declared.packets.Packet.{Packet as PacketIs};
ghost use Rattle.pf_wire.specs.Packets.{packet_bytes};
ghost use Rattle.pf_server_memory.specs.Outgoing.{Sends, IsFirstPacket, IsLastPacket};
ghost use Rattle.pf_server_memory.specs.Packets.{packet};

use crate::queue::PacketQueue;
use crate::spelling::thin;
use crate::{Running, StepFault};
use pf_base::{NoMemory, ServerId, Slot, Term};
use pf_codec::Spelled;
use pf_entry::{Entry, Packet, Slots};
use pf_protocol::Refusal;
use pf_wire::{encode, encode_accept, encode_image, readdressed};
use std::alloc::Global;
use std::marker::Model;

/// The packets of a step as they are spelled, in order; how many more packets and bytes there is room for; and the slot that the step
/// acknowledged to the host.
#[derive(Drop)]
pub struct Outbox {
    packets: PacketQueue,
    packet_room: u32,
    byte_room: u64,
    acked: Option<Slot>,
}

impl Model for Outbox {
    ghost use Rattle.pf_server_memory.specs.Outgoing.{Outgoing, outgoing_code};

    ghost Value = { Outgoing };

    ghost coded = { outgoing_code };

    ghost view = { λ a. record { packets = a.packets; packet_room = a.packet_room; byte_room = a.byte_room; acked = a.acked } };
}

impl Outbox {
    /// Nothing is sent yet; there is room for so many packets and so many bytes of them.
    pub fn new(alloc: Global, packets: u32, bytes: u64) -> Outbox
        ensures { result ≡ record { packets = []; packet_room = packets; byte_room = bytes; acked = None } }
    {
        Outbox {
            packets: PacketQueue::new(alloc),
            packet_room: packets,
            byte_room: bytes,
            acked: None,
        }
    }

    /// Sends one packet. Refused with `PacketsFull` (55) exactly where there is no room for one more, or for its bytes.
    pub fn push(&mut self, alloc: Global, packet: &Packet) -> Result<(), StepFault>
        requires { IsCanonicalPacket packet.now }
        ensures { Sends self.old self.new (packet.now ∷ []) result }
    {
        self.check_place()?;
        let bytes = encode(alloc, packet)?;
        self.put(bytes)
    }

    /// Sends an Accept of this entry, with the refusals of `push`.
    pub fn push_accept(
        &mut self,
        alloc: Global,
        from: ServerId,
        to: ServerId,
        term: Term,
        entry: &Entry,
    ) -> Result<(), StepFault>
        requires { IsCanonicalPacket (packet from to term (AcceptIs entry.now)) }
        ensures { Sends self.old self.new (packet from to term (AcceptIs entry.now) ∷ []) result }
    {
        self.check_place()?;
        let bytes = encode_accept(alloc, from, to, term, entry)?;
        self.put(bytes)
    }

    /// Sends the image of this server's checkpoint, with these applied slots above it, from where its sectors stand. The refusals
    /// are those of `push`.
    pub fn push_image(
        &mut self,
        alloc: Global,
        me: &Running,
        to: ServerId,
        applied: &Slots,
    ) -> Result<(), StepFault>
        requires { IsCanonicalPacket (packet me.now.number to me.now.term (ImageIs me.now.log.base applied.now me.now.sectors)) }
        ensures { Sends self.old self.new (packet me.now.number to me.now.term (ImageIs me.now.log.base applied.now me.now.sectors) ∷ []) result }
    {
        self.check_place()?;
        let base = me.log.base();
        let sectors = thin(&me.sectors);
        let bytes = encode_image(alloc, me.number, to, me.term, base, applied, &sectors)?;
        self.put(bytes)
    }

    /// Sends the packet that was sent last to another server too, with the refusals of `push`.
    pub(crate) fn push_again(&mut self, alloc: Global, to: ServerId) -> Result<(), StepFault>
        requires { (p : PacketIs) × IsLastPacket p self.old × IsCanonicalPacket (record p { to = to }) }
        ensures { (p : PacketIs) → IsLastPacket p self.old → IsCanonicalPacket (record p { to = to })
            → Sends self.old self.new (record p { to = to } ∷ []) result }
    {
        self.check_place()?;
        // The caller has sent one, so there is a last one.
        let Some(last) = self.packets.last() else {
            return Ok(());
        };
        let bytes = readdressed(alloc, last, to)?;
        self.put(bytes)
    }

    /// `PacketsFull` (55) exactly where there is no room for one more packet.
    fn check_place(&self) -> Result<(), StepFault>
        ensures place { OnOk result (0 < self.now.packet_room) }
        ensures none { OnErr result (self.now.packet_room ≡ 0) }
        ensures full { IfErr result (λ fault. fault ≡ StepFault.Refused Refusal.PacketsFull) }
    {
        if self.packet_room == 0 {
            return Err(StepFault::Refused(Refusal::PacketsFull));
        }
        Ok(())
    }

    /// Puts a spelled packet behind the others. Refused with `PacketsFull` (55) exactly where there is no room for its bytes.
    fn put(&mut self, bytes: Spelled) -> Result<(), StepFault>
        requires { 0 < self.old.packet_room }
        ensures { (p : PacketIs) → IsCanonicalPacket p → bytes ≡ packet_bytes p → Sends self.old self.new (p ∷ []) result }
    {
        let len = bytes.len() as u64;
        if self.byte_room < len {
            return Err(StepFault::Refused(Refusal::PacketsFull));
        }
        self.keep(bytes)?;
        self.packet_room -= 1;
        self.byte_room -= len;
        Ok(())
    }

    fn keep(&mut self, bytes: Spelled) -> Result<(), NoMemory>
        ensures { OnOk result (self.new ≡ record self.old { packets = self.old.packets ++ bytes ∷ [] }) }
    {
        self.packets.push(bytes)
    }

    /// The step acknowledges the slot to the host.
    pub fn acknowledge(&mut self, slot: Slot)
        ensures { self.new ≡ record self.old { acked = Some slot } }
    {
        self.acked = Some(slot);
    }

    /// The slot that the step acknowledged to the host, `None` exactly where it acknowledged none.
    pub fn acked(&self) -> Option<Slot>
        ensures { result ≡ self.now.acked }
    {
        self.acked
    }

    /// Takes out the first packet, `None` exactly where none is left.
    pub fn take(&mut self) -> Option<Spelled>
        ensures none { IfNone result ((self.old.packets ≡ []) × (self.new ≡ self.old)) }
        ensures first { IfSome result (λ bytes. IsFirstPacket self.old bytes self.new) }
    {
        self.packets.take()
    }
}
