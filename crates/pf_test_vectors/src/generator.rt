//! Scripts against those that another program generates.
use pf_gen::script;
use std::alloc::Global;

/// Numbers, and the count of the bytes of their scripts with a sum of them, which each byte enters after 31 times the sum before.
const SUMS: [(u64, usize, u64); 3] = [
    (0, 30_656, 11_109_432_547_362_455_522),
    (12_345, 30_318, 6_556_030_434_363_106_347),
    (u64::MAX, 30_144, 17_379_432_025_813_491_142),
];

/// The sum of these bytes.
fn sum(text: &[u8]) -> u64 {
    let mut sum = 0_u64;
    for byte in text {
        sum = sum.wrapping_mul(31).wrapping_add(u64::from(*byte));
    }
    sum
}

/// Whether the script of a number has so many bytes, and this sum of them.
fn has_sum(alloc: Global, number: u64, count: usize, wanted: u64) -> bool {
    match script(alloc, number) {
        Ok(text) => text.len() == count && sum(&text) == wanted,
        Err(_) => false,
    }
}

#[test]
fn scripts_are_whole(rt: HostRuntime) {
    for (number, count, wanted) in SUMS {
        assert!(rt; has_sum(rt.alloc(), number, count, wanted), "{number}");
    }
}
