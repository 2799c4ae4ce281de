//! The door before a lock's tickets: one caller is in, and the others sleep, so that none of them spins at its ticket.
use std::hint;
use std::sync::Wait;
use std::sync::atomic::{AtomicU64, Ordering};
use std::time::Duration;

/// How often a caller looks at a shut door before it sleeps.
const LOOKS: u32 = 100;

/// The milliseconds that a sleeper sleeps at most before it looks again.
const NAP: u64 = 10;

const OPEN: u64 = 0;

const SHUT: u64 = 1;
/// Shut, and somebody may sleep before it.
const AWAITED: u64 = 2;

/// A door that is open, shut or awaited. Who sleeps before it has made it awaited, and whoever leaves it awaited wakes one, who makes it
/// awaited again for those that still sleep: no wake-up is lost, since a sleep begins only while the door is awaited.
#[derive(Drop)]
pub(crate) struct Door {
    state: AtomicU64,
}

impl Door {
    pub(crate) fn new() -> Door {
        Door {
            state: AtomicU64::new(OPEN),
        }
    }

    /// Waits until nobody is in, and shuts the door behind the caller.
    pub(crate) fn enter<R: Wait>(&self, rt: &R) {
        for _ in 0..LOOKS {
            if self.is_entered() {
                return;
            }
            hint::spin_loop();
        }
        for _ in rt.forever() {
            if self.state.swap(AWAITED, Ordering::SeqCst) == OPEN {
                return;
            }
            self.state
                .park_timeout(rt, AWAITED as u32, Duration::from_millis(NAP));
        }
    }

    /// Whether the door was open, and is shut now behind the caller.
    fn is_entered(&self) -> bool {
        self.state.load(Ordering::SeqCst) == OPEN
            && self
                .state
                .compare_exchange(OPEN, SHUT, Ordering::SeqCst, Ordering::SeqCst)
                .is_ok()
    }

    /// Opens the door that the caller shut.
    pub(crate) fn leave(&self) {
        if self.state.swap(OPEN, Ordering::SeqCst) == AWAITED {
            self.state.wake_one();
        }
    }
}
