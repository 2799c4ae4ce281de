//! Records as bytes: a payload of each kind by hand.
//!
//! That a record which was read is spelled by the same payload is what both calls promise.
use pf_base::{NoMemory, Piece, Shared};
use pf_codec::read_record;
use std::alloc::Global;

/// The entry of slot 4, term 4 and first 3, which names slot 3 and its sectors 8 and 9, and writes the sector 5; its 512 bytes follow.
const WRITE: [u8; 44] = [
    0, 0, 0, 0, 0, 0, 0, 4, 0, 0, 0, 0, 0, 0, 0, 4, 0, 0, 0, 0, 0, 0, 0, 3, 1, 0, 0, 0, 0, 0, 0, 0,
    3, 0, 0, 0, 8, 2, 1, 0, 0, 0, 5, 1,
];

/// Term 9, first 5, and two entries: the no-op of slot 2, term 4 and first 4; `WRITE` follows.
const MERGED: [u8; 46] = [
    0, 0, 0, 0, 0, 0, 0, 9, 0, 0, 0, 0, 0, 0, 0, 5, 0, 0, 0, 2, 0, 0, 0, 0, 0, 0, 0, 2, 0, 0, 0, 0,
    0, 0, 0, 4, 0, 0, 0, 0, 0, 0, 0, 4, 0, 0,
];

/// Generation 1, term 2, checkpoint 3, one start, slot 5 applied, and one entry; `WRITE` follows, and then 16 sectors.
const IMAGE: [u8; 58] = [
    0, 0, 0, 0, 0, 0, 0, 1, 0, 0, 0, 0, 0, 0, 0, 2, 0, 0, 0, 0, 0, 0, 0, 3, 0, 1, 0, 0, 0, 0, 0, 0,
    0, 2, 0, 0, 0, 0, 0, 0, 0, 1, 0, 0, 0, 1, 0, 0, 0, 0, 0, 0, 0, 5, 0, 0, 0, 1,
];

/// Whether the bytes are the payload of a record of this kind in format 2.
fn is_record(alloc: Global, kind: u8, payload: &[u8]) -> Result<bool, NoMemory> {
    let file = Shared::new(alloc, Vec::from_slice(alloc, payload)?)?;
    let payload = Piece::new(&file, 0, payload.len());
    Ok(read_record(alloc, 2, kind, &payload)?.is_some())
}

#[test]
fn each_kind_is_read(rt: HostRuntime) {
    let alloc = rt.alloc();
    let mut write = [65; 556];
    write[..44].copy_from_slice(&WRITE);
    let mut merged = [0; 602];
    merged[..46].copy_from_slice(&MERGED);
    merged[46..].copy_from_slice(&write);
    let mut image = [0; 8810];
    image[..58].copy_from_slice(&IMAGE);
    image[58..614].copy_from_slice(&write);
    image[617] = 16;
    assert!(rt; is_record(alloc, 1, &image) == Ok(true));
    assert!(rt; is_record(alloc, 2, &[0, 0, 0, 0, 0, 0, 1, 0]) == Ok(true));
    assert!(rt; is_record(alloc, 3, &write) == Ok(true));
    assert!(rt; is_record(alloc, 4, &merged) == Ok(true));
}
