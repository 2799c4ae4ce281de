//! What the lock does.
ghost use Rattle.std.specs.Prelude.{◌≡◌, ◌≢◌, ℕ, ◌+◌, ◌^◌, ◌<◌, [], ◌∷◌, IfOk, IfErr};
ghost use Rattle.pf_turn.specs.Lists.{Begins, Every, SameOf, longer, entries_of, GrewBy};
ghost use Rattle.pf_turn.specs.Seats.{number_of, gone_of, root_in, seen_by, splits_of, out_of, IsFirst, IsSeatOf, HasNoTurn, HasTurn, IsSameSeat};

use crate::door::Door;
use crate::log::Logged;
use crate::parts::{Turn, TurnLock, TurnSeat};
use crate::plays::{Cut, Draw, Glue, Number, Serve, Tell, TurnLook};
use atomic_table::{Refused, Table};
use pf_base::NoMemory;
use std::alloc::{AllocFailed, Global};
use std::sync::Wait;
use std::thread;

impl<E, K, V> TurnSeat<E, K, V> {
    /// The number that stamps the seat's entries: 0 of the first seat, then 1, 2 and so on in the order of the splits.
    pub fn number(&self) -> u64
        ensures { result ≡ number_of self.now }
    {
        self.number
    }
}

impl<E, K, V: Logged<E, K>> TurnLock<E, K, V> {
    /// The lock of a value with an empty list and this root, and its first seat. Where memory runs out (`NoMemory`, 1) the value
    /// comes back.
    pub fn new(
        alloc: Global,
        value: V,
        root: &K,
    ) -> Result<(TurnLock<E, K, V>, TurnSeat<E, K, V>), (V, NoMemory)>
        requires bare { V.log value ≡ [] }
        requires root { V.root value ≡ root.now }
        ensures seat { IfOk result (λ made. IsSeatOf made.0 made.1 × HasNoTurn made.1) }
        ensures first { IfOk result (λ made. IsFirst made.1 × (splits_of made.1 ≡ 0) × (out_of made.1 ≡ 0) × (seen_by made.1 ≡ []) × (gone_of made.1 ≡ [])) }
        ensures root { IfOk result (λ made. root_in made.0 ≡ root.now) }
        ensures refused { IfErr result (λ back. back.0 ≡ value) }
    {
        let mut slots = Vec::new(alloc);
        if let Err(failed) = slots.push(Some(value)) {
            let AllocFailed { value } = failed;
            slots.destroy_empty();
            return match value {
                Some(value) => Err((value, NoMemory)),
                None => unreachable!(),
            };
        }
        match Table::new(alloc, &[0, 0, 1], slots, root) {
            Ok((table, seat)) => Ok((
                TurnLock {
                    table,
                    door: Door::new(),
                },
                TurnSeat { number: 0, seat },
            )),
            Err(refused) => {
                let Refused { mut slots } = refused;
                let value = slots.pop();
                slots.destroy_empty();
                match value {
                    Some(Some(value)) => Err((value, NoMemory)),
                    _ => unreachable!(),
                }
            }
        }
    }

    /// A new seat, which has seen what the first seat has and made no entry. Fewer than 2^32 seats come from one first seat.
    /// Takes no memory.
    pub fn split(&self, seat: &mut TurnSeat<E, K, V>) -> TurnSeat<E, K, V>
        requires seat { IsSeatOf self.now seat.old × HasNoTurn seat.old }
        requires first { IsFirst seat.old × (splits_of seat.old < 2 ^ 32) }
        ensures seat { IsSeatOf self.now seat.new × HasNoTurn seat.new × IsFirst seat.new }
        ensures counts { (splits_of seat.new ≡ splits_of seat.old + 1) × (out_of seat.new ≡ out_of seat.old + 1) × (gone_of seat.new ≡ gone_of seat.old) }
        ensures seen { (seen_by seat.new ≡ seen_by seat.old) × (seen_by result ≡ seen_by seat.old) }
        ensures given { IsSeatOf self.now result × HasNoTurn result × (number_of result ≡ splits_of seat.old + 1) }
        ensures none_made { entries_of (number_of result) (seen_by result) ≡ [] }
    {
        let number = self.table.shared.fetch_add::<Number>(&mut seat.seat, 2, 1);
        let seat = self.table.shared.split_seat::<Cut>(&mut seat.seat);
        TurnSeat { number, seat }
    }

    /// Waits for the seat's turn, and hands the value out. Its list begins with all that the seat has seen, and has the
    /// seat's own entries and no others of its number. The first seat, where no other is out, finds exactly what it has seen. The
    /// value has the lock's root.
    pub fn take<R: Wait>(&self, rt: &R, seat: &mut TurnSeat<E, K, V>) -> Turn<V>
        requires { IsSeatOf self.now seat.old × HasNoTurn seat.old }
        ensures seat { IsSeatOf self.now seat.new × HasTurn seat.new × IsSameSeat seat.old seat.new }
        ensures seen { (seen_by seat.new ≡ V.log result.value) × Begins (seen_by seat.old) (V.log result.value) }
        ensures own { entries_of (number_of seat.old) (V.log result.value) ≡ entries_of (number_of seat.old) (seen_by seat.old) }
        ensures root { V.root result.value ≡ root_in self.now }
        ensures alone { IsFirst seat.old → out_of seat.old ≡ 0 → V.log result.value ≡ seen_by seat.old }
    {
        self.door.enter(rt);
        let ticket = self.table.shared.fetch_add::<Draw>(&mut seat.seat, 0, 1);
        for _ in rt.forever() {
            if self.table.shared.load::<TurnLook>(&mut seat.seat, 1) == ticket {
                return match self.table.shared.exchange(&mut seat.seat, 0, None) {
                    Some(value) => Turn { value },
                    None => unreachable!(),
                };
            }
            // Who is in draws the ticket that is served next, so this is not reached.
            thread::yield_now();
        }
        unreachable!()
    }

    /// Ends the seat's turn. The value's list is what the seat found, grown by entries of this seat alone, and its root is the lock's.
    pub fn give(&self, seat: &mut TurnSeat<E, K, V>, turn: Turn<V>)
        requires seat { IsSeatOf self.now seat.old × HasTurn seat.old }
        requires root { V.root turn.value ≡ root_in self.now }
        requires grew { GrewBy (number_of seat.old) (seen_by seat.old) (V.log turn.value) }
        ensures seat { IsSeatOf self.now seat.new × HasNoTurn seat.new × IsSameSeat seat.old seat.new }
        ensures seen { seen_by seat.new ≡ V.log turn.value }
    {
        let Turn { value } = turn;
        match self.table.shared.exchange(&mut seat.seat, 0, Some(value)) {
            None => {}
            Some(_) => unreachable!(),
        }
        self.table.shared.fetch_add::<Serve>(&mut seat.seat, 1, 1);
        self.door.leave();
    }

    /// Takes in a seat that was split from the first one. The first seat has then seen what either had, and one seat less
    /// is out. No number that was not yet split has an entry.
    pub fn join(&self, seat: &mut TurnSeat<E, K, V>, other: TurnSeat<E, K, V>)
        requires seat { IsSeatOf self.now seat.old × HasNoTurn seat.old × IsFirst seat.old }
        requires other { IsSeatOf self.now other × HasNoTurn other × (number_of other ≢ 0) }
        ensures seat { IsSeatOf self.now seat.new × HasNoTurn seat.new × IsFirst seat.new }
        ensures counts { (splits_of seat.new ≡ splits_of seat.old) × (out_of seat.new + 1 ≡ out_of seat.old)
            × (gone_of seat.new ≡ number_of other ∷ gone_of seat.old) }
        ensures seen { (seen_by seat.new ≡ longer (seen_by seat.old) (seen_by other)) × Begins (seen_by seat.old) (seen_by seat.new)
            × Begins (seen_by other) (seen_by seat.new) }
        ensures own { entries_of 0 (seen_by seat.new) ≡ entries_of 0 (seen_by seat.old) }
        ensures gone { Every (SameOf (seen_by seat.new) (seen_by seat.old)) (gone_of seat.old) }
        ensures brought { entries_of (number_of other) (seen_by seat.new) ≡ entries_of (number_of other) (seen_by other) }
        ensures strangers { (n : ℕ) → splits_of seat.new < n → entries_of n (seen_by seat.new) ≡ [] }
    {
        let TurnSeat {
            number: _,
            seat: other,
        } = other;
        self.table.shared.join_seat::<Glue>(&mut seat.seat, other);
        self.table.shared.load::<Tell>(&mut seat.seat, 1);
    }

    /// The value, once every seat has been joined. Its list is exactly what the first seat has seen, with no entry of a
    /// number that no seat had, and its root is the lock's.
    pub fn close(self, seat: TurnSeat<E, K, V>) -> V
        requires seat { IsSeatOf self seat × HasNoTurn seat }
        requires first { IsFirst seat × (out_of seat ≡ 0) }
        ensures seen { V.log result ≡ seen_by seat }
        ensures root { V.root result ≡ root_in self }
        ensures strangers { (n : ℕ) → splits_of seat < n → entries_of n (V.log result) ≡ [] }
    {
        let TurnLock { table, door: _ } = self;
        let TurnSeat { number: _, seat } = seat;
        let mut closed = table.close_with(seat);
        let value = closed.take(0);
        closed.free();
        match value {
            Some(value) => value,
            None => unreachable!(),
        }
    }
}
