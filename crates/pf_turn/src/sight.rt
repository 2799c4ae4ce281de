//! What a seat knows, and the rule of the lock's table: word 0 is the next ticket, word 1 the ticket served, word 2 one more
//! than the count of seat numbers that were drawn. Slot 0 holds the value, or nothing while a turn is out.
use crate::log::{Logged, Stamped};
use atomic_table::TableRule;
use std::collections::LinkedList;

/// Whether a seat waits for its turn or has it, and by which ticket. Tickets are counted without end here; the words hold
/// them modulo 2^64.
pub enum SightStage {
    Idle,
    Waiting(u64),
    Called(u64),
}

/// What a seat knows. No value of it is ever made.
pub struct Sight<E, K> {
    pub number: u64,
    pub live: bool,
    /// What never changes of the value. A seat that was joined has none.
    pub root: Option<K>,
    pub stage: SightStage,
    /// The list as the seat last saw it.
    pub seen: LinkedList<Stamped<E>>,
    /// What the seat had seen before it took in another, what the other had seen, and the other's number.
    pub before: LinkedList<Stamped<E>>,
    pub brought: LinkedList<Stamped<E>>,
    pub brought_by: u64,
    /// Of the first seat: the numbers of the seats that it took in.
    pub gone: LinkedList<u64>,
    /// Those that it had taken in before the last one.
    pub was_gone: LinkedList<u64>,
    /// Of the first seat: how many numbers it drew, how many seats were split from it, and how many of these are out.
    pub drawn: u64,
    pub splits: u64,
    pub out: u64,
    /// One more than `out`: after a join, what `out` was before.
    pub was_out: u64,
}

/// The rule of a turn lock.
pub struct Tickets;

impl<E, K, V: Logged<E, K>> TableRule<Option<V>, Sight<E, K>, K> for Tickets {
    ghost use Rattle.pf_turn.specs.Rule.{Ruled, opener};

    ghost holds = { Ruled V.log V.root };

    ghost first = { opener };
}
