//! The tables of a server that does nothing yet.
ghost use Rattle.std.specs.Prelude.{◌≡◌, IfOk};
ghost use Rattle.std.specs.FinMap as map;

use pf_base::NoMemory;
use pf_entry::Op;
use pf_server_tables::{CopyRoom, Few, Snapshots};
use std::alloc::Global;

/// What a life begins with beside its state: no job is in hand, and no snapshot is kept.
#[derive(Drop)]
pub struct Idle {
    pub in_hand: Few<Op>,
    pub rooms: Few<CopyRoom>,
    pub snapshots: Snapshots,
}

impl Idle {
    /// Takes the memory of these tables.
    pub fn new(alloc: Global) -> Result<Idle, NoMemory>
        ensures in_hand { IfOk result (λ idle. idle.in_hand ≡ map.empty) }
        ensures rooms { IfOk result (λ idle. idle.rooms ≡ map.empty) }
        ensures snapshots { IfOk result (λ idle. idle.snapshots ≡ map.empty) }
    {
        let snapshots = Snapshots::new(alloc)?;
        Ok(Idle {
            in_hand: Few::new(alloc),
            rooms: Few::new(alloc),
            snapshots,
        })
    }
}
