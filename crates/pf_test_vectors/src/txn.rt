//! Values that are of no transaction, and the one from which they differ by a byte.
//!
//! How transactions are spelled and read shows in stored runs, which show sectors and judge lists.
use pf_base::Value;
use pf_txn::read_txn;
use std::alloc::Global;

/// Call 258 of mount 3, with a change of each kind: inode 515 becomes a directory, directory 1 names it `d`, the empty name goes
/// from directory 1,029, and block 513 is freed.
const EACH: [u8; 31] = [
    3, 0, 0, 1, 2, 4, 1, 2, 3, 2, 0, 0, 0, 0, 2, 0, 1, 2, 3, 1, 0x64, 3, 4, 5, 0, 4, 2, 1, 0xff,
    0xff, 0,
];

/// A place in `EACH`, and another byte there, with which it is no transaction: fewer or more changes than it has, a change of no
/// kind, a kind of inode that is none, a name past the end, an index of a freed block.
const NONE: [(usize, u8); 6] = [(5, 3), (5, 5), (6, 0), (9, 3), (24, 7), (30, 1)];

/// Whether the value is a transaction.
fn is_txn(alloc: Global, value: &Value) -> bool {
    matches!(read_txn(alloc, value), Ok(Some(_)))
}

#[test]
fn other_values_are_of_none(rt: HostRuntime) {
    let alloc = rt.alloc();
    assert!(rt; is_txn(alloc, &Value::copied(&EACH)));
    assert!(rt; !is_txn(alloc, &Value::copied(&EACH[..30])));
    for (at, byte) in NONE {
        let mut bytes = EACH;
        bytes[at] = byte;
        assert!(rt; !is_txn(alloc, &Value::copied(&bytes)), "{at}");
    }
}
