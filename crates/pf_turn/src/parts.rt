//! The lock, its seats and its turns. They stand apart from the methods, since the words for seats name them.
ghost use Rattle.std.specs.Prelude.{◌≡◌};

use crate::door::Door;
use crate::log::Logged;
use crate::sight::{Sight, Tickets};
use atomic_table::{Seat, Table};
use std::alloc::Global;

/// A value that callers take turns with.
#[derive(Drop)]
pub struct TurnLock<E, K, V: Logged<E, K>> {
    pub(crate) table: Table<Option<V>, Sight<E, K>, K, Tickets, Global>,
    pub(crate) door: Door,
    ghost shape: { (table.shared.table_id.words ≡ 3) × (table.shared.table_id.slots ≡ 1) },
}

/// A caller's place at one lock. A thread has a seat of its own.
#[derive(Drop)]
pub struct TurnSeat<E, K, V> {
    pub(crate) number: u64,
    pub(crate) seat: Seat<Option<V>, Sight<E, K>>,
}

/// The value, while it is a caller's turn. It cannot be dropped: code that may leave without giving it back does not compile.
pub struct Turn<V> {
    pub value: V,
}
