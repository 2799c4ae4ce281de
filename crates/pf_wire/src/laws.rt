//! Laws of packets as bytes.
ghost use Rattle.std.specs.Prelude.{◌≡◌, List, ℕ, ◌++◌, length};
ghost use Rattle.pf_entry.specs.Canonical.{IsCanonicalPacket};
ghost use Rattle.pf_entry.specs.Sizes.{packet_size};
ghost use Rattle.pf_entry.specs.declared.packets.Packet.{Packet};
ghost use Rattle.pf_wire.specs.Packets.{packet_bytes, PacketFitsWords};

/// A packet's bytes tell the packet, and end by themselves: no packet's bytes begin with another one's. So what was
/// encoded is decoded as the same packet.
pub fn packets_tell_themselves()
    ensures packet_is { (p q : Packet) (x y : List ℕ) → PacketFitsWords p → PacketFitsWords q → IsCanonicalPacket p → IsCanonicalPacket q
        → packet_bytes p ++ x ≡ packet_bytes q ++ y → p ≡ q }
    ensures rest_is { (p q : Packet) (x y : List ℕ) → PacketFitsWords p → PacketFitsWords q → IsCanonicalPacket p → IsCanonicalPacket q
        → packet_bytes p ++ x ≡ packet_bytes q ++ y → x ≡ y }
{}

/// A packet has as many bytes as its size says.
pub fn packets_have_their_sizes()
    ensures { (p : Packet) → IsCanonicalPacket p → length (packet_bytes p) ≡ packet_size p }
{}
