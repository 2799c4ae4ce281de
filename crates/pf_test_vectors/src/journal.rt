//! Sectors that are of no block, and the two from which they differ by a byte.
//!
//! How blocks are spelled shows in the stored runs that show sectors; that what is spelled is read is a law.
use pf_base::Sector;
use pf_journal::read_block;

/// The first bytes of a sector: mbal, bal, length, and what follows.
type Head = [u8; 40];

/// The mbal 35, and no value.
const CLAIM: Head = [
    0, 0, 0, 0, 0, 0, 0, 0x23, 0, 0, 0, 0, 0, 0, 0, 0, 0, 0, 0, 0, 0, 0, 0, 0, 0, 0, 0, 0, 0, 0, 0,
    0, 0, 0, 0, 0, 0, 0, 0, 0,
];

/// A transaction in the ballot 17: the first call of mount 1, which creates `/a` in an empty tree.
const PROPOSAL: Head = [
    0, 0, 0, 0, 0, 0, 0, 0x11, 0, 0, 0, 0, 0, 0, 0, 0x11, 0, 0x15, 1, 0, 0, 0, 1, 2, 1, 0, 1, 1, 0,
    0, 0, 0, 2, 0, 0, 0, 1, 1, 0x61, 0,
];

/// A byte of one of them and another one in its place, which makes it no block: a length above 400, padding that is not zero, a
/// value without a bal, an mbal of 2^62 or more, a bal without a value.
const NONE: [(Head, usize, u8); 5] = [
    (PROPOSAL, 16, 2),
    (PROPOSAL, 17, 0x14),
    (PROPOSAL, 15, 0),
    (PROPOSAL, 0, 0x40),
    (CLAIM, 15, 0x23),
];

/// These bytes, and zeros.
fn sector_of(head: &Head) -> Sector {
    let mut sector = [0; 512];
    sector[..40].copy_from_slice(head);
    sector
}

#[test]
fn other_sectors_are_of_none(rt: HostRuntime) {
    assert!(rt; read_block(&sector_of(&CLAIM)).is_some());
    assert!(rt; read_block(&sector_of(&PROPOSAL)).is_some());
    for (head, at, byte) in NONE {
        let mut sector = sector_of(&head);
        sector[at] = byte;
        assert!(rt; read_block(&sector).is_none());
    }
}
