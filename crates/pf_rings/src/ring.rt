//! The ring and its passes.
ghost use Rattle.std.specs.Prelude.{◌≡◌};
ghost use Rattle.crossbeam_queue.specs.Passes.{ruled_capacity};

use crate::count::{Counting, RingSight};
use crate::view::{InOrder, Request, RingView};
use atomic_table::{Seat, Table};
use crossbeam_queue::{Pass, RuledArrayQueue};
use std::alloc::Global;

/// Requests that one host put and the server thread has not taken yet. Eight places.
#[derive(Drop)]
pub struct Ring {
    /// The host whose requests these are.
    pub host: u32,
    pub(crate) queue: RuledArrayQueue<Request, RingView, InOrder>,
    /// How many stand. A refused call of the queue leaves no trace in what a pass knows, and one that looks here does.
    pub(crate) count: Table<(), RingSight, (), Counting, Global>,
    ghost room: { ruled_capacity queue ≡ 8 },
    ghost shape: { count.shared.table_id.words ≡ 1 },
}

/// The host's right to put, or the server thread's to take.
#[derive(Drop)]
pub struct RingPass {
    pub(crate) pass: Pass<Request, RingView>,
    pub(crate) seat: Seat<(), RingSight>,
}
