//! Packets as bytes: one of each kind by hand, and bytes that are no packet.
//!
//! That a packet which was read is encoded by the same bytes is what both calls promise.
use pf_codec::Spelled;
use pf_entry::{Body, Packet};
use pf_wire::{WireFault, decode};
use std::alloc::Global;

/// A RequestVote from 1 to 2, of term 2, with checkpoint 0.
const REQUEST: [u8; 19] = [1, 1, 2, 0, 0, 0, 0, 0, 0, 0, 2, 0, 0, 0, 0, 0, 0, 0, 0];

/// A vote from 0 to 1, of term 4: checkpoint 1, a start, and the no-op of slot 2.
const VOTE: [u8; 67] = [
    2, 0, 1, 0, 0, 0, 0, 0, 0, 0, 4, 0, 0, 0, 0, 0, 0, 0, 1, 0, 1, 0, 0, 0, 0, 0, 0, 0, 4, 0, 0, 0,
    0, 0, 0, 0, 2, 0, 0, 0, 1, 0, 0, 0, 0, 0, 0, 0, 2, 0, 0, 0, 0, 0, 0, 0, 4, 0, 0, 0, 0, 0, 0, 0,
    4, 0, 0,
];

/// An Accept from 2 to 0, of term 4: slot 2, first 4, a no-op.
const ACCEPT: [u8; 37] = [
    3, 2, 0, 0, 0, 0, 0, 0, 0, 0, 4, 0, 0, 0, 0, 0, 0, 0, 2, 0, 0, 0, 0, 0, 0, 0, 4, 0, 0, 0, 0, 0,
    0, 0, 4, 0, 0,
];

/// An Ack from 2 to 1, of term 5: of slot 3, with all up to slot 1 applied.
const ACK: [u8; 27] = [
    4, 2, 1, 0, 0, 0, 0, 0, 0, 0, 5, 0, 0, 0, 0, 0, 0, 0, 3, 0, 0, 0, 0, 0, 0, 0, 1,
];

/// Packets of kinds 5 to 8 from 0 to 1, of term 4, with none, one or two numbers.
const NUMBERS: [&[u8]; 4] = [
    &[5, 0, 1, 0, 0, 0, 0, 0, 0, 0, 4],
    &[6, 0, 1, 0, 0, 0, 0, 0, 0, 0, 4, 0, 0, 0, 0, 0, 0, 0, 9],
    &[7, 0, 1, 0, 0, 0, 0, 0, 0, 0, 4, 0, 0, 0, 0, 0, 0, 0, 9],
    &[
        8, 0, 1, 0, 0, 0, 0, 0, 0, 0, 4, 0, 0, 0, 0, 0, 0, 0, 9, 1, 2, 3, 4, 5, 6, 7, 8,
    ],
];

/// The first bytes of an image from 0 to 1, of term 4: checkpoint 1, slot 3 applied, and 16 sectors, which follow.
const IMAGE: [u8; 35] = [
    9, 0, 1, 0, 0, 0, 0, 0, 0, 0, 4, 0, 0, 0, 0, 0, 0, 0, 1, 0, 0, 0, 1, 0, 0, 0, 0, 0, 0, 0, 3, 0,
    0, 0, 16,
];

/// Whether this is the packet of `ACK`.
fn is_ack(packet: &Packet) -> bool {
    match packet.body {
        Body::Ack { slot: 3, upto: 1 } => packet.from == 2 && packet.to == 1 && packet.term == 5,
        _ => false,
    }
}

/// Whether the packet that the bytes are is that of `ACK`.
fn is_read_as_ack(alloc: Global, bytes: &[u8]) -> Result<bool, WireFault> {
    let Ok(bytes) = Vec::from_slice(alloc, bytes) else {
        return Err(WireFault::NoMemory);
    };
    match decode(alloc, &Spelled::from_vec(bytes)) {
        Ok(packet) => Ok(is_ack(&packet)),
        Err(fault) => Err(fault),
    }
}

/// Whether the bytes are a packet.
fn is_packet(alloc: Global, bytes: &[u8]) -> bool {
    matches!(is_read_as_ack(alloc, bytes), Ok(_))
}

/// Whether the bytes are refused as no packet.
fn is_bad(alloc: Global, bytes: &[u8]) -> bool {
    matches!(is_read_as_ack(alloc, bytes), Err(WireFault::BadPacket))
}

#[test]
fn each_kind_is_read(rt: HostRuntime) {
    let alloc = rt.alloc();
    assert!(rt; is_packet(alloc, &REQUEST));
    assert!(rt; is_packet(alloc, &VOTE));
    assert!(rt; is_packet(alloc, &ACCEPT));
    assert!(rt; matches!(is_read_as_ack(alloc, &ACK), Ok(true)));
    for bytes in NUMBERS {
        assert!(rt; is_packet(alloc, bytes));
    }
    let mut image = [0; 8227];
    image[..35].copy_from_slice(&IMAGE);
    assert!(rt; is_packet(alloc, &image));
}

/// A place in `REQUEST`, and another byte there, with which it is no packet: a kind that is none, a sender that is the receiver,
/// servers that are none, and term 0.
const NO_REQUEST: [(usize, u8); 6] = [(0, 0), (0, 10), (1, 2), (1, 3), (2, 3), (10, 0)];

/// A place in `ACCEPT`, and another byte there, with which it is no packet: a look count of 1, an entry of another term, and a tag that is none.
const NO_ACCEPT: [(usize, u8); 3] = [(35, 1), (26, 3), (36, 3)];

#[test]
fn bytes_that_are_no_packet(rt: HostRuntime) {
    let alloc = rt.alloc();
    for len in 0..REQUEST.len() {
        assert!(rt; is_bad(alloc, &REQUEST[..len]));
    }
    for len in 0..ACCEPT.len() {
        assert!(rt; is_bad(alloc, &ACCEPT[..len]));
    }
    for (at, byte) in NO_REQUEST {
        let mut bytes = REQUEST;
        bytes[at] = byte;
        assert!(rt; is_bad(alloc, &bytes), "{at}");
    }
    for (at, byte) in NO_ACCEPT {
        let mut bytes = ACCEPT;
        bytes[at] = byte;
        assert!(rt; is_bad(alloc, &bytes), "{at}");
    }
}
