//! Packets that are the whole of some bytes.
ghost use Rattle.std.specs.Prelude.{◌≡◌, ◌≢◌, IfOk, Err};
ghost use Rattle.std.specs.Int.{w64};
ghost use Rattle.pf_entry.specs.Canonical.{IsCanonicalPacket, second_format};
ghost use Rattle.pf_entry.specs.declared.packets.Body.TheVariants.{RequestVote, Vote, Accept, Ack, Commit, Probe, ProbeOk};
ghost use Rattle.pf_entry.specs.declared.packets.Packet.{Packet};
ghost use Rattle.pf_codec.specs.Parsers.{AreBytes, ParserGives, GivesAll, number_at};
ghost use Rattle.pf_codec.specs.Reading.{entry_at, vote_at};
ghost use Rattle.pf_wire.specs.Packets.{packet_bytes, PacketFitsWords};
ghost use Rattle.pf_wire.specs.Reading.{message_of, pair_at, image_at, message_at, agrees, is_packet, packet_at, packet_in};

use crate::WireFault;
use pf_base::Term;
use pf_codec::{
    Bounds, ByteReader, ReadFault, Spelled, read_entry, read_sectors, read_slots, read_vote,
};
use pf_entry::{Body, Packet};
use std::alloc::Global;

#[tactic(auto, unfolding(pf_codec::specs::Parsers::followed_by, pf_codec::specs::Parsers::checked))]
fn read_request_vote(reader: &mut ByteReader) -> Result<Body, ReadFault>
    ensures { ParserGives (λ body. body) result reader.new (message_of (number_at w64) RequestVote reader.old) }
{
    let base = reader.u64()?;
    Ok(Body::RequestVote { base })
}

#[tactic(auto, unfolding(pf_codec::specs::Parsers::followed_by, pf_codec::specs::Parsers::checked))]
fn read_a_vote(alloc: Global, reader: &mut ByteReader) -> Result<Body, ReadFault>
    ensures { ParserGives (λ body. body) result reader.new (message_of (vote_at second_format) Vote reader.old) }
{
    let vote = read_vote(alloc, reader, Bounds::second_format())?;
    Ok(Body::Vote(vote))
}

#[tactic(auto, unfolding(pf_codec::specs::Parsers::followed_by, pf_codec::specs::Parsers::checked))]
fn read_accept(alloc: Global, reader: &mut ByteReader) -> Result<Body, ReadFault>
    ensures { ParserGives (λ body. body) result reader.new (message_of (entry_at second_format) Accept reader.old) }
{
    let entry = read_entry(alloc, reader, Bounds::second_format())?;
    Ok(Body::Accept(entry))
}

#[tactic(auto, unfolding(pf_codec::specs::Parsers::followed_by, pf_codec::specs::Parsers::checked))]
fn read_commit(reader: &mut ByteReader) -> Result<Body, ReadFault>
    ensures { ParserGives (λ body. body) result reader.new (message_of (number_at w64) Commit reader.old) }
{
    let slot = reader.u64()?;
    Ok(Body::Commit { slot })
}

#[tactic(auto, unfolding(pf_codec::specs::Parsers::followed_by, pf_codec::specs::Parsers::checked))]
fn read_probe(reader: &mut ByteReader) -> Result<Body, ReadFault>
    ensures { ParserGives (λ body. body) result reader.new (message_of (number_at w64) Probe reader.old) }
{
    let number = reader.u64()?;
    Ok(Body::Probe { number })
}

/// Two numbers.
#[tactic(auto, unfolding(crate::specs::Reading::pair_at, pf_codec::specs::Parsers::followed_by, pf_codec::specs::Parsers::checked))]
fn read_pair(reader: &mut ByteReader) -> Result<(u64, u64), ReadFault>
    ensures { ParserGives (λ pair. pair) result reader.new (pair_at reader.old) }
{
    let first = reader.u64()?;
    let second = reader.u64()?;
    Ok((first, second))
}

#[tactic(auto, unfolding(pf_codec::specs::Parsers::followed_by, pf_codec::specs::Parsers::checked))]
fn read_ack(reader: &mut ByteReader) -> Result<Body, ReadFault>
    ensures { ParserGives (λ body. body) result reader.new (message_of pair_at (λ pair. Ack pair.0 pair.1) reader.old) }
{
    let (slot, upto) = read_pair(reader)?;
    Ok(Body::Ack { slot, upto })
}

#[tactic(auto, unfolding(pf_codec::specs::Parsers::followed_by, pf_codec::specs::Parsers::checked))]
fn read_probe_ok(reader: &mut ByteReader) -> Result<Body, ReadFault>
    ensures { ParserGives (λ body. body) result reader.new (message_of pair_at (λ pair. ProbeOk pair.0 pair.1) reader.old) }
{
    let (number, upto) = read_pair(reader)?;
    Ok(Body::ProbeOk { number, upto })
}

#[tactic(auto, unfolding(crate::specs::Reading::image_at, pf_codec::specs::Parsers::followed_by, pf_codec::specs::Parsers::checked))]
fn read_image(alloc: Global, reader: &mut ByteReader) -> Result<Body, ReadFault>
    ensures { ParserGives (λ body. body) result reader.new (image_at reader.old) }
{
    let base = reader.u64()?;
    let applied = read_slots(alloc, reader, base)?;
    let sectors = read_sectors(alloc, reader)?;
    Ok(Body::Image {
        base,
        applied,
        sectors,
    })
}

/// The message of this kind.
#[tactic(auto, unfolding(crate::specs::Reading::message_at, pf_codec::specs::Parsers::checked))]
fn read_message(alloc: Global, reader: &mut ByteReader, kind: u8) -> Result<Body, ReadFault>
    ensures { ParserGives (λ body. body) result reader.new (message_at kind reader.old) }
{
    match kind {
        1 => read_request_vote(reader),
        2 => read_a_vote(alloc, reader),
        3 => read_accept(alloc, reader),
        4 => read_ack(reader),
        5 => Ok(Body::Nack),
        6 => read_commit(reader),
        7 => read_probe(reader),
        8 => read_probe_ok(reader),
        9 => read_image(alloc, reader),
        _ => Err(ReadFault::Malformed),
    }
}

/// Whether the entry of an Accept has the packet's term.
fn agrees(term: Term, body: &Body) -> bool
    ensures { result ≡ agrees term body.now }
{
    match body {
        Body::Accept(entry) => entry.term == term,
        _ => true,
    }
}

/// Whether the packet is canonical, apart from what its message says by itself.
#[tactic(auto, unfolding(crate::specs::Reading::is_packet))]
fn is_canonical(packet: &Packet) -> bool
    ensures { result ≡ is_packet packet.now }
{
    packet.from < 3
        && packet.to < 3
        && packet.from != packet.to
        && packet.term >= 1
        && agrees(packet.term, &packet.body)
}

#[tactic(auto, unfolding(crate::specs::Reading::packet_at, pf_codec::specs::Parsers::followed_by, pf_codec::specs::Parsers::checked))]
fn read_packet(alloc: Global, reader: &mut ByteReader) -> Result<Packet, ReadFault>
    ensures { ParserGives (λ packet. packet) result reader.new (packet_at reader.old) }
{
    let kind = reader.u8()?;
    let from = reader.u8()?;
    let to = reader.u8()?;
    let term = reader.u64()?;
    let body = read_message(alloc, reader, kind)?;
    let packet = Packet {
        from,
        to,
        term,
        body,
    };
    if !is_canonical(&packet) {
        return Err(ReadFault::Malformed);
    }
    Ok(packet)
}

#[tactic(auto, unfolding(crate::specs::Reading::packet_in))]
fn read_whole(alloc: Global, bytes: &Spelled) -> Result<Packet, ReadFault>
    ensures gives { GivesAll (λ packet. packet) result (packet_in bytes.now) }
    ensures bytes { AreBytes bytes.now }
{
    let mut reader = ByteReader::of(bytes);
    let packet = read_packet(alloc, &mut reader)?;
    if !reader.is_at_end() {
        return Err(ReadFault::Malformed);
    }
    Ok(packet)
}

/// The packet that these bytes are, all of them. Sectors that are shared are shared with the packet too. `BadPacket` (31)
/// comes exactly where no canonical packet is spelled so, and `NoMemory` (1) where memory has run out.
pub fn decode(alloc: Global, bytes: &Spelled) -> Result<Packet, WireFault>
    ensures canonical { IfOk result (λ packet. IsCanonicalPacket packet) }
    ensures spelled { IfOk result (λ packet. packet_bytes packet ≡ bytes.now) }
    ensures fits { IfOk result (λ packet. PacketFitsWords packet) }
    ensures only { (p : Packet) → PacketFitsWords p → IsCanonicalPacket p → packet_bytes p ≡ bytes.now → IfOk result (λ packet. packet ≡ p) }
    ensures bad_packet { result ≡ Err WireFault.BadPacket → (p : Packet) → PacketFitsWords p → IsCanonicalPacket p → packet_bytes p ≢ bytes.now }
{
    match read_whole(alloc, bytes) {
        Ok(packet) => Ok(packet),
        Err(ReadFault::Malformed) => Err(WireFault::BadPacket),
        Err(ReadFault::NoMemory) => Err(WireFault::NoMemory),
    }
}
