//! What the workers of a live line share.
use crate::plan::LinePlan;
use pf_disk::Disk;
use pf_leadercell::LeaderCell;
use pf_live_crew::Bell;
use pf_rings::Ring;
use pf_shared::SharedGroup;
use std::alloc::Global;
use std::sync::atomic::{AtomicBool, AtomicU64, Ordering};

/// How many packets are delivered before those that wait for them are woken, where more are left: all do their work in turns, so that none
/// comes sooner to its end if each packet wakes them.
const BATCH: u32 = 16;

/// The two rings of a host. In that of the answers the worker that submits has the side that is called the host's, and the host the other.
#[derive(Drop)]
pub struct HostRings {
    /// The host puts its requests into it, and the worker that submits takes them.
    pub requests: Ring,
    /// That worker puts each request of the host into it that was acknowledged, and the host takes it.
    pub answers: Ring,
    /// Its host sleeps on it while it is not told.
    pub bell: Bell,
}

/// What the workers but the hosts sleep on.
#[derive(Drop)]
pub struct Bells {
    pub submitter: Bell,
    pub switch: Bell,
    pub appliers: Bell,
}

impl Bells {
    /// Bells that were never rung.
    pub fn new() -> Bells {
        Bells {
            submitter: Bell::new(),
            switch: Bell::new(),
            appliers: Bell::new(),
        }
    }
}

/// What the workers share: the group, the leader that the switch published, the gate that is called round each step, and two signs that
/// decide nothing but when to look.
pub struct LiveLine<D: Disk, G> {
    pub group: SharedGroup<D>,
    pub gate: G,
    pub alloc: Global,
    pub cell: LeaderCell,
    pub plan: LinePlan,
    /// One of each host.
    pub rings: Vec<HostRings>,
    pub bells: Bells,
    /// How often the group was changed. A worker that found nothing to do waits until it was changed again.
    pub moves: AtomicU64,
    /// How often the group had been changed when the switch last found that no packet is left.
    pub calm: AtomicU64,
    /// Whether all are to end.
    pub stops: AtomicBool,
}

impl<D: Disk, G> LiveLine<D, G> {
    /// The workers are to begin.
    pub fn begin(&self) {
        self.calm.store(u64::MAX, Ordering::SeqCst);
        self.stops.store(false, Ordering::SeqCst);
    }

    /// A request has a slot, so the switch has packets to deliver. Nothing can be applied or is acknowledged before it does.
    pub(crate) fn placed(&self) {
        self.moves.fetch_add(1, Ordering::SeqCst);
        self.bells.switch.ring();
    }

    /// A packet was delivered, the last of so many. The switch goes on to the next, so the others are woken for each batch, and for the
    /// rest where no packet is left.
    pub(crate) fn delivered(&self, made: u32) {
        self.moves.fetch_add(1, Ordering::SeqCst);
        if made % BATCH == 0 {
            self.call();
        }
    }

    /// Wakes those that wait for deliveries. Of the workers that apply one is enough, which looks again after each job.
    fn call(&self) {
        self.bells.submitter.ring();
        self.bells.appliers.ring_for_one();
    }

    /// A job has ended. Its worker looks next, and wakes the switch where it finds no other.
    pub(crate) fn applied(&self) {
        self.moves.fetch_add(1, Ordering::SeqCst);
    }

    /// A worker found nothing to apply, after jobs that it may have ended.
    pub(crate) fn idled(&self) {
        self.bells.switch.ring();
    }

    /// How often it was changed.
    pub fn count(&self) -> u64 {
        self.moves.load(Ordering::SeqCst)
    }

    /// No packet was left when the group had been changed so often.
    pub(crate) fn calm_down(&self, moves: u64) {
        self.calm.store(moves, Ordering::SeqCst);
        self.call();
    }

    /// Whether no packet was left when the group had been changed so often.
    pub(crate) fn is_calm(&self, moves: u64) -> bool {
        self.calm.load(Ordering::SeqCst) == moves
    }

    /// All are to end.
    pub fn stop(&self) {
        self.stops.store(true, Ordering::SeqCst);
        self.bells.switch.ring();
        self.bells.submitter.ring();
        self.bells.appliers.ring();
        for rings in &self.rings {
            rings.bell.ring();
        }
    }

    pub(crate) fn is_stopping(&self) -> bool {
        self.stops.load(Ordering::SeqCst)
    }
}
