//! How many bytes a packet takes.
ghost use Rattle.std.specs.Prelude.{◌≡◌, ◌+◌, ◌<◌, ◌≤◌, ◌^◌, length};
ghost use Rattle.pf_entry.specs.Canonical.{IsCanonicalEntry, IsCanonicalMessage, IsCanonicalPacket, second_format};
ghost use Rattle.pf_entry.specs.Sets as set;
ghost use Rattle.pf_entry.specs.Sizes.{entry_size, message_size, op_size, packet_size, sectors_size, slots_size};

use pf_base::Term;
use pf_codec::{ThinSectors, entry_size, vote_size};
use pf_entry::{Body, Entry, Op, Packet, Slots};

/// The bytes before a message: its kind, the sender, the receiver and the term.
pub(crate) const HEAD: u64 = 11;

/// The bytes of the message of an image.
pub(crate) fn image_size(applied: &Slots, sectors: &ThinSectors) -> u64
    requires slots { set.len applied.now < 2 ^ 32 }
    requires sectors { length sectors.now ≤ 4096 }
    ensures size { result ≡ 8 + slots_size applied.now + sectors_size sectors.now }
    ensures most { result < 2 ^ 48 }
{
    let slots = applied.as_slice().len() as u64;
    let count = sectors.len() as u64;
    16 + 8 * slots + 512 * count
}

/// The bytes of a message.
fn message_size(term: Term, body: &Body) -> u64
    requires { IsCanonicalMessage term body.now }
    ensures size { result ≡ message_size body.now }
    ensures most { result < 2 ^ 60 }
{
    match body {
        Body::RequestVote { base: _ } => 8,
        Body::Vote(vote) => vote_size(vote),
        Body::Accept(entry) => entry_size(entry),
        Body::Ack { slot: _, upto: _ } => 16,
        Body::Nack => 0,
        Body::Commit { slot: _ } => 8,
        Body::Probe { number: _ } => 8,
        Body::ProbeOk { number: _, upto: _ } => 16,
        Body::Image {
            base: _,
            applied,
            sectors,
        } => image_size(applied, &ThinSectors::all(sectors)),
    }
}

/// The bytes of a canonical packet.
#[tactic(auto, unfolding(pf_entry::specs::Sizes::packet_size))]
pub fn length_of(packet: &Packet) -> u64
    requires { IsCanonicalPacket packet.now }
    ensures { result ≡ packet_size packet.now }
{
    HEAD + message_size(packet.term, &packet.body)
}

/// The bytes of the sectors of an op.
fn shared_by(op: &Op) -> u64
    ensures { result ≤ op_size op.now }
{
    match op {
        Op::Write { range: _, payload } => 512 * payload.len() as u64,
        _ => 0,
    }
}

/// The bytes of an entry, but for its sectors, which are shared.
pub(crate) fn own_entry_size(entry: &Entry) -> u64
    requires { IsCanonicalEntry second_format entry.now }
    ensures size { result ≤ entry_size entry.now }
    ensures most { result ≤ 4400 }
{
    entry_size(entry) - shared_by(&entry.op)
}

/// The bytes of a message, but for those that are shared.
fn own_size(term: Term, body: &Body) -> u64
    requires { IsCanonicalMessage term body.now }
    ensures size { result ≤ message_size body.now }
    ensures most { result < 2 ^ 60 }
{
    match body {
        Body::Accept(entry) => own_entry_size(entry),
        _ => message_size(term, body),
    }
}

/// The bytes of a canonical packet, but for those that are shared.
#[tactic(auto, unfolding(pf_entry::specs::Sizes::packet_size))]
pub(crate) fn own_length_of(packet: &Packet) -> u64
    requires { IsCanonicalPacket packet.now }
    ensures { result ≤ packet_size packet.now }
{
    HEAD + own_size(packet.term, &packet.body)
}
