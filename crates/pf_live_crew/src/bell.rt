//! What workers sleep on that found nothing to do.
use std::sync::Wait;
use std::sync::atomic::{AtomicU64, Ordering};
use std::time::Duration;

/// The milliseconds that a worker sleeps at most before it looks again.
const NAP: u64 = 10;

/// A bell that is rung after each change that its sleepers may have waited for.
///
/// No wake-up is lost. A worker counts the rings before it looks, and sleeps only while they are as many: a change that its look missed was
/// followed by a ring that it had not counted. Whoever rings counts first and asks for sleepers then, and a sleeper tells of itself before
/// its count is compared, so either the comparison fails or the ring wakes it. One that is woken for another, or at the end of its nap, looks
/// once more.
#[derive(Drop)]
pub struct Bell {
    rings: AtomicU64,
    sleepers: AtomicU64,
}

impl Bell {
    /// A bell that was never rung.
    pub fn new() -> Bell {
        Bell {
            rings: AtomicU64::new(0),
            sleepers: AtomicU64::new(0),
        }
    }

    /// Sleeps, unless it was rung since it had been rung so often. How often it was rung now.
    pub fn rest<R: Wait>(&self, rt: &R, heard: u64) -> u64 {
        if self.rings.load(Ordering::SeqCst) == heard {
            self.sleepers.fetch_add(1, Ordering::SeqCst);
            self.rings.park_timeout(rt, (heard & 0xffff_ffff) as u32, Duration::from_millis(NAP));
            self.sleepers.fetch_sub(1, Ordering::SeqCst);
        }
        self.rings.load(Ordering::SeqCst)
    }

    /// Wakes all that sleep.
    pub fn ring(&self) {
        if self.is_awaited() {
            self.rings.wake_all();
        }
    }

    /// Wakes one that sleeps, where what was changed is for any of them.
    pub fn ring_for_one(&self) {
        if self.is_awaited() {
            self.rings.wake_one();
        }
    }

    /// Counts a ring. Whether one may sleep.
    fn is_awaited(&self) -> bool {
        self.rings.fetch_add(1, Ordering::SeqCst);
        self.sleepers.load(Ordering::SeqCst) != 0
    }
}
