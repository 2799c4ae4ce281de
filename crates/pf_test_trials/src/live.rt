//! Whole lines over disks in memory, whose threads meet.
use pf_base::{LiveEnd, NoMemory};
use pf_disk::RamDisk;
use pf_group_copy::{Gate, Workers};
use pf_live_line::pf_group::{Group, Six};
use pf_live_line::pf_live_seats::LinePlan;
use pf_live_session::{Lived, live};
use std::alloc::Global;
use std::sync::Wait;
use std::sync::atomic::{AtomicU64, Ordering};
use std::thread;
use std::thread::Threads;

/// Room for each half, in bytes.
const ROOM: u64 = 400_000;

/// Six empty disks.
pub(crate) fn disks(alloc: Global) -> Result<Six<RamDisk>, NoMemory> {
    Ok(Six {
        s0h0: RamDisk::new(alloc, ROOM)?,
        s0h1: RamDisk::new(alloc, ROOM)?,
        s1h0: RamDisk::new(alloc, ROOM)?,
        s1h1: RamDisk::new(alloc, ROOM)?,
        s2h0: RamDisk::new(alloc, ROOM)?,
        s2h1: RamDisk::new(alloc, ROOM)?,
    })
}

/// A line over a new group of 16 sectors.
fn line<R: Threads + Wait + Sync, G: Gate + Sync>(
    rt: &R,
    alloc: Global,
    plan: LinePlan,
    gate: &G,
) -> Result<Lived, NoMemory> {
    let group = match Group::new(alloc, 0, 16, 2, 2, disks(alloc)?) {
        Ok((group, _)) => group,
        Err((_, NoMemory)) => return Err(NoMemory),
    };
    let workers = Workers {
        rt,
        alloc,
        gate,
        count: 1,
    };
    let (_, lived) = live(&workers, group, plan);
    lived
}

/// Two hosts with 50 writes each, and three workers that apply.
const FULL: LinePlan = LinePlan {
    hosts: 2,
    writes: 50,
    workers: 3,
    turns: 100_000,
    sectors: 16,
};

/// How often a call that is held looks for the other one.
const TURNS: u32 = 100_000_000;

/// Two calls of which each is held until the other has begun: the worker of each and which of its calls it is, from 0 on.
#[derive(Clone, Copy)]
enum Pair {
    Calls((u32, u64), (u32, u64)),
    /// The first calls of two different workers that apply.
    Appliers,
}

#[derive(Drop)]
struct Meeting {
    pair: Pair,
    /// How many calls the first worker of the pair made, and the second; of those that apply, the first that came, and another.
    one: AtomicU64,
    two: AtomicU64,
    begun_one: AtomicU64,
    begun_two: AtomicU64,
    missed: AtomicU64,
}

impl Meeting {
    fn new(pair: Pair) -> Meeting {
        Meeting {
            pair,
            one: AtomicU64::new(0),
            two: AtomicU64::new(0),
            begun_one: AtomicU64::new(0),
            begun_two: AtomicU64::new(0),
            missed: AtomicU64::new(0),
        }
    }

    /// Which of the two calls it is: 1 or 2, or 0 where it is neither.
    fn place(&self, worker: u32) -> u32 {
        match self.pair {
            Pair::Calls((one, first), (two, second)) => {
                if worker == one && self.one.fetch_add(1, Ordering::SeqCst) == first {
                    1
                } else if worker == two && self.two.fetch_add(1, Ordering::SeqCst) == second {
                    2
                } else {
                    0
                }
            }
            Pair::Appliers if worker >= 100 => 0,
            Pair::Appliers => {
                let own = u64::from(worker) + 1;
                if self.is_next(&self.one, own) {
                    1
                } else if self.one.load(Ordering::SeqCst) != own && self.is_next(&self.two, own) {
                    2
                } else {
                    0
                }
            }
        }
    }

    /// Whether it came first to this place.
    fn is_next(&self, place: &AtomicU64, own: u64) -> bool {
        place
            .compare_exchange(0, own, Ordering::SeqCst, Ordering::SeqCst)
            .is_ok()
    }

    /// Whether both calls began, and neither was held in vain.
    fn has_met(&self) -> bool {
        self.begun_one.load(Ordering::SeqCst) == 1
            && self.begun_two.load(Ordering::SeqCst) == 1
            && self.missed.load(Ordering::SeqCst) == 0
    }

    /// Holds a call until the other one has begun.
    fn hold(&self, own: &AtomicU64, other: &AtomicU64) {
        own.store(1, Ordering::SeqCst);
        for _ in 0..TURNS {
            if other.load(Ordering::SeqCst) == 1 {
                return;
            }
            thread::yield_now();
        }
        self.missed.store(1, Ordering::SeqCst);
    }
}

impl Gate for Meeting {
    fn before(&self, worker: u32) {
        match self.place(worker) {
            1 => self.hold(&self.begun_one, &self.begun_two),
            2 => self.hold(&self.begun_two, &self.begun_one),
            _ => {}
        }
    }

    fn after(&self, _worker: u32) {}
}

/// Hosts have the numbers from 100 on, the worker that submits has 200 and the switch 300.
const PAIRS: [Pair; 4] = [
    Pair::Calls((100, 0), (101, 0)),
    Pair::Calls((101, 0), (200, 0)),
    Pair::Calls((300, 0), (200, 1)),
    Pair::Appliers,
];

/// Whether every write was applied on each server.
fn is_whole(lived: &Lived) -> bool {
    lived.end == LiveEnd::Done && lived.totals.applied == [100, 100, 100]
}

/// Whether a line over a new group is whole, in which these two calls meet.
fn meets<R: Threads + Wait + Sync>(rt: &R, alloc: Global, pair: Pair) -> bool {
    let gate = Meeting::new(pair);
    match line(rt, alloc, FULL, &gate) {
        Ok(lived) => is_whole(&lived) && gate.has_met(),
        Err(NoMemory) => false,
    }
}

/// Where one thread did all, the first call of a pair would not end before the second has begun.
#[test]
fn threads_of_a_line_meet(rt: HostRuntime) {
    for pair in PAIRS {
        assert!(rt; meets(&rt, rt.alloc(), pair));
    }
}
