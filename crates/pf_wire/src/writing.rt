//! Packets as bytes.
ghost use Rattle.std.specs.Prelude.{◌≡◌, ◌<◌, ◌≤◌, ◌^◌, ◌++◌, IfOk, OnOk, length};
ghost use Rattle.std.specs.Int.{w64};
ghost use Rattle.pf_entry.specs.Canonical.{IsCanonicalMessage, IsCanonicalPacket};
ghost use Rattle.pf_entry.specs.Sets as set;
ghost use Rattle.pf_entry.specs.declared.packets.Body.TheVariants.{Accept as AcceptIs, Image as ImageIs};
ghost use Rattle.pf_entry.specs.declared.packets.Packet.{Packet as PacketIs};
ghost use Rattle.pf_codec.specs.Spelling.{byte, number, sectors_bytes, slots_bytes};
ghost use Rattle.pf_wire.specs.Packets.{body_kind, message_bytes, packet_bytes};

use crate::sizes::{HEAD, image_size, own_entry_size, own_length_of};
use pf_base::{NoMemory, ServerId, Slot, Term};
use pf_codec::{Spelled, ThinSectors, Writer, write_entry, write_sectors, write_slots, write_vote};
use pf_entry::{Body, Entry, Packet, Slots};
use std::alloc::Global;

/// The kind of an Accept.
const ACCEPT: u8 = 3;

/// The kind of an image.
const IMAGE: u8 = 9;

/// The place of the receiver among the bytes of a packet.
const RECEIVER: usize = 2;

/// The number of a message's kind.
fn kind_of(body: &Body) -> u8
    ensures { result ≡ body_kind body.now }
{
    match body {
        Body::RequestVote { base: _ } => 1,
        Body::Vote(_) => 2,
        Body::Accept(_) => ACCEPT,
        Body::Ack { slot: _, upto: _ } => 4,
        Body::Nack => 5,
        Body::Commit { slot: _ } => 6,
        Body::Probe { number: _ } => 7,
        Body::ProbeOk { number: _, upto: _ } => 8,
        Body::Image {
            base: _,
            applied: _,
            sectors: _,
        } => IMAGE,
    }
}

/// Two numbers.
#[tactic(auto, using(std::proofs::lemmas::List::append_assoc))]
fn write_pair(writer: &mut Writer, first: u64, second: u64) -> Result<(), NoMemory>
    ensures { OnOk result (writer.new ≡ writer.old ++ (number w64 first ++ number w64 second)) }
{
    writer.u64(first)?;
    writer.u64(second)
}

/// The message of an image.
#[tactic(auto, using(std::proofs::lemmas::List::append_assoc))]
fn write_image(
    writer: &mut Writer,
    base: Slot,
    applied: &Slots,
    sectors: &ThinSectors,
) -> Result<(), NoMemory>
    requires slots { set.len applied.now < 2 ^ 32 }
    requires sectors { length sectors.now ≤ 4096 }
    ensures { OnOk result (writer.new ≡ writer.old ++ (number w64 base ++ (slots_bytes applied.now ++ sectors_bytes sectors.now))) }
{
    writer.u64(base)?;
    write_slots(writer, applied)?;
    write_sectors(writer, sectors)
}

/// The message of a packet of this term.
#[tactic(auto, using(std::proofs::lemmas::List::append_assoc), unfolding(crate::specs::Packets::message_bytes))]
fn write_message(writer: &mut Writer, term: Term, body: &Body) -> Result<(), NoMemory>
    requires { IsCanonicalMessage term body.now }
    ensures { OnOk result (writer.new ≡ writer.old ++ message_bytes body.now) }
{
    match body {
        Body::RequestVote { base } => writer.u64(*base),
        Body::Vote(vote) => write_vote(writer, vote),
        Body::Accept(entry) => write_entry(writer, entry),
        Body::Ack { slot, upto } => write_pair(writer, *slot, *upto),
        Body::Nack => Ok(()),
        Body::Commit { slot } => writer.u64(*slot),
        Body::Probe { number } => writer.u64(*number),
        Body::ProbeOk { number, upto } => write_pair(writer, *number, *upto),
        Body::Image {
            base,
            applied,
            sectors,
        } => write_image(writer, *base, applied, &ThinSectors::all(sectors)),
    }
}

/// What stands before a message: its kind, the sender, the receiver and the term.
#[tactic(auto, using(std::proofs::lemmas::List::append_assoc))]
fn write_head(
    writer: &mut Writer,
    kind: u8,
    from: ServerId,
    to: ServerId,
    term: Term,
) -> Result<(), NoMemory>
    ensures { OnOk result (writer.new ≡ writer.old ++ (byte kind ++ (byte from ++ (byte to ++ number w64 term)))) }
{
    writer.u8(kind)?;
    writer.u8(from)?;
    writer.u8(to)?;
    writer.u64(term)
}

#[tactic(auto, using(std::proofs::lemmas::List::append_assoc), unfolding(crate::specs::Packets::packet_bytes))]
fn write_packet(writer: &mut Writer, packet: &Packet) -> Result<(), NoMemory>
    requires { IsCanonicalPacket packet.now }
    ensures { OnOk result (writer.new ≡ writer.old ++ packet_bytes packet.now) }
{
    let kind = kind_of(&packet.body);
    write_head(writer, kind, packet.from, packet.to, packet.term)?;
    write_message(writer, packet.term, &packet.body)
}

/// The bytes of a canonical packet. The sectors of an Accept's entry are shared with it. The one error is `NoMemory` (1).
pub fn encode(alloc: Global, packet: &Packet) -> Result<Spelled, NoMemory>
    requires { IsCanonicalPacket packet.now }
    ensures { IfOk result (λ bytes. bytes ≡ packet_bytes packet.now) }
{
    let mut writer = Writer::with_room(alloc, own_length_of(packet) as usize)?;
    write_packet(&mut writer, packet)?;
    Ok(writer.into_spelled())
}

/// The bytes of a canonical Accept of this entry, whose sectors are shared with it. The one error is `NoMemory` (1).
#[tactic(auto, using(std::proofs::lemmas::List::append_assoc), unfolding(crate::specs::Packets::packet_bytes, crate::specs::Packets::message_bytes))]
pub fn encode_accept(
    alloc: Global,
    from: ServerId,
    to: ServerId,
    term: Term,
    entry: &Entry,
) -> Result<Spelled, NoMemory>
    requires { IsCanonicalPacket (record { from = from; to = to; term = term; body = AcceptIs entry.now }) }
    ensures { IfOk result (λ bytes. bytes ≡ packet_bytes (record { from = from; to = to; term = term; body = AcceptIs entry.now })) }
{
    let room = HEAD + own_entry_size(entry);
    let mut writer = Writer::with_room(alloc, room as usize)?;
    write_head(&mut writer, ACCEPT, from, to, term)?;
    write_entry(&mut writer, entry)?;
    Ok(writer.into_spelled())
}

/// The bytes of a canonical Image. The one error is `NoMemory` (1).
#[tactic(auto, using(std::proofs::lemmas::List::append_assoc), unfolding(crate::specs::Packets::packet_bytes, crate::specs::Packets::message_bytes))]
pub fn encode_image(
    alloc: Global,
    from: ServerId,
    to: ServerId,
    term: Term,
    base: Slot,
    applied: &Slots,
    sectors: &ThinSectors,
) -> Result<Spelled, NoMemory>
    requires { IsCanonicalPacket (record { from = from; to = to; term = term; body = ImageIs base applied.now sectors.now }) }
    ensures { IfOk result (λ bytes. bytes ≡ packet_bytes (record { from = from; to = to; term = term; body = ImageIs base applied.now sectors.now })) }
{
    let room = HEAD + image_size(applied, sectors);
    let mut writer = Writer::with_room(alloc, room as usize)?;
    write_head(&mut writer, IMAGE, from, to, term)?;
    write_image(&mut writer, base, applied, sectors)?;
    Ok(writer.into_spelled())
}

/// The bytes of the same packet to another server. The sectors of an entry stay shared. The one error is `NoMemory` (1).
pub fn readdressed(alloc: Global, bytes: &Spelled, to: ServerId) -> Result<Spelled, NoMemory>
    requires { (p : PacketIs) × (bytes.now ≡ packet_bytes p) }
    ensures { (p : PacketIs) → bytes.now ≡ packet_bytes p → IfOk result (λ copy. copy ≡ packet_bytes (record p { to = to })) }
{
    bytes.with_byte(alloc, RECEIVER, to)
}
