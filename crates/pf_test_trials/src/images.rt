//! A pair of halves over disks in memory that crash inside a save.
ghost use Rattle.std.specs.Prelude.{◌≡◌, ℕ, List, IfOk, length};
ghost use Rattle.pf_chunklog.specs.Records.{Raw, body_of};

use crate::chunklog::failing_disk;
use pf_chunklog::RawRecords;
use pf_disk::MemDisk;
use pf_image::Pair;
use std::alloc::{AllocError, Global};

const HEAD: [u8; 7] = [80, 70, 67, 76, 2, 1, 0];

/// Room for a half with one image, in bytes.
const ROOM: u64 = 20_000;

/// The number of a call that is never made.
const NEVER: u64 = 99;

/// The body of an Image record of this generation and term, with no starts, applied slots or entries, and 16 sectors of zeros.
fn image(alloc: Global, generation: u8, term: u8) -> Result<Vec<u8>, AllocError>
    ensures body { IfOk result (λ body. (raw : Raw) × (body.items ≡ body_of raw)) }
    ensures size { IfOk result (λ body. length body.items ≡ 8236) }
{
    let front = [
        1, 0, 0, 32, 38, 0, 0, 0, 0, 0, 0, 0, generation, 0, 0, 0, 0, 0, 0, 0, term, 0, 0, 0, 0, 0,
        0, 0, 0, 0, 0, 0, 0, 0, 0, 0, 0, 0, 0, 0, 0, 0, 16,
    ];
    let mut body = Vec::from_slice(alloc, &front)?;
    for _k in 0..8193u32 {
        body.push(0)?;
    }
    Ok(body)
}

/// The disks of a pair after a save, and whether that was acknowledged; `None` where there is no pair. The calls of these numbers fail, of
/// the disk of half 0 and of that of half 1.
fn saved(alloc: Global, zero: u64, one: u64) -> Option<(bool, MemDisk, MemDisk)> {
    let Ok(before) = image(alloc, 0, 1) else {
        return None;
    };
    let Ok(after) = image(alloc, 1, 2) else {
        return None;
    };
    let zero = failing_disk(alloc, ROOM, zero)?;
    let one = failing_disk(alloc, ROOM, one)?;
    let mut pair = Pair::new(zero, one, HEAD, &before).ok()?;
    let is_saved = pair.save(&after).is_ok();
    let (zero, one) = pair.into_disks();
    Some((is_saved, zero, one))
}

/// Whether these records are that of the image alone, whose payload stands between five bytes and a gate.
fn are_of(records: &RawRecords, image: &[u8]) -> bool {
    match (records.len(), records.get(0)) {
        (1, Some((1, payload))) => image.get(5..8235) == Some(payload),
        _ => false,
    }
}

/// What a restart finds.
#[derive(Clone, Copy, PartialEq, Eq)]
enum State {
    Before,
    After,
}

/// What a restart finds on these disks.
fn found(alloc: Global, zero: MemDisk, one: MemDisk) -> Option<State> {
    let Ok(before) = image(alloc, 0, 1) else {
        return None;
    };
    let Ok(after) = image(alloc, 1, 2) else {
        return None;
    };
    let (_, records) = Pair::load(alloc, zero, one, HEAD).ok()?;
    if are_of(&records, &before) {
        Some(State::Before)
    } else if are_of(&records, &after) {
        Some(State::After)
    } else {
        None
    }
}

/// Whether a save was acknowledged in which this call of the disk of half 1 failed, and what a restart finds after a crash.
fn left(alloc: Global, failing: u64, seed: u64) -> Option<(bool, State)> {
    let (is_saved, mut zero, mut one) = saved(alloc, NEVER, failing)?;
    zero.crash(seed);
    one.crash(seed);
    Some((is_saved, found(alloc, zero, one)?))
}

/// Whether a save is acknowledged where calls of these numbers fail.
fn is_saved(alloc: Global, zero: u64, one: u64) -> bool {
    matches!(saved(alloc, zero, one), Some((true, _, _)))
}

/// Each call of a disk in a save fails in turn, or none; then both disks crash. A save makes none of the disk of half 0, whose first eight
/// calls are of the pair's making, and those from 2 to 9 of that of half 1.
#[test]
fn a_crash_in_a_save(rt: HostRuntime) {
    assert!(rt; is_saved(rt.alloc(), 8, 10));
    for seed in 0..3 {
        for failing in 2..10 {
            assert!(rt;
                matches!(left(rt.alloc(), failing, seed), Some((false, _))),
                "{failing} {seed}"
            );
        }
        assert!(rt;
            left(rt.alloc(), NEVER, seed) == Some((true, State::After)),
            "{seed}"
        );
    }
}
