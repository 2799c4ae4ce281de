//! A log over a disk in memory that crashes inside an append.
use pf_chunklog::{ChunkLog, RawRecords};
use pf_disk::MemDisk;
use std::alloc::Global;

const HEAD: [u8; 8] = [80, 70, 67, 76, 2, 0, 1, 0];

/// The body of a Term record of term 2.
const TERM: [u8; 14] = [2, 0, 0, 0, 8, 0, 0, 0, 0, 0, 0, 0, 2, 0];

/// The disk of a new log after the append of the record, whether or not that failed; `None` where there is no new log.
fn with_record(disk: MemDisk) -> Option<MemDisk> {
    match ChunkLog::format(disk, HEAD) {
        Ok(mut log) => {
            let _ = log.append(&TERM);
            Some(log.into_disk())
        }
        Err(_) => None,
    }
}

/// A disk in memory with room for 20 calls and so many bytes, whose call of this number fails.
pub(crate) fn failing_disk(alloc: Global, room: u64, failing: u64) -> Option<MemDisk> {
    match Vec::from_slice(alloc, &[failing]) {
        Ok(failing) => MemDisk::new(alloc, room, 20, failing).ok(),
        Err(_) => None,
    }
}

/// How many records there are, of which each is that of the append.
fn count_of(records: &RawRecords) -> Option<usize> {
    match (records.len(), records.get(0)) {
        (0, _) => Some(0),
        (1, Some((2, payload))) if payload == &TERM[5..13] => Some(1),
        _ => None,
    }
}

/// How many records a log opens with on this disk.
fn opened(alloc: Global, disk: MemDisk) -> Option<usize> {
    match ChunkLog::open(alloc, disk, HEAD) {
        Ok((_, records)) => count_of(&records),
        Err(_) => None,
    }
}

/// How many records a restart finds after a crash, where the call of this number failed in the append or none did.
fn left(alloc: Global, failing: u64, seed: u64) -> Option<usize> {
    let mut disk = with_record(failing_disk(alloc, 100, failing)?)?;
    disk.crash(seed);
    opened(alloc, disk)
}

/// Each call of the disk in an append fails in turn, or none; then the disk crashes.
#[test]
fn a_crash_in_an_append(rt: HostRuntime) {
    for (failing, count) in [(4, 0), (5, 0), (6, 0), (7, 0), (99, 1)] {
        for seed in 0..3 {
            assert!(rt;
                left(rt.alloc(), failing, seed) == Some(count),
                "{failing} {seed}"
            );
        }
    }
}
