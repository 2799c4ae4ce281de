//! Small tables by term or by slot.
ghost use Rattle.std.specs.Prelude.{◌≡◌, IsTrue};
ghost use Rattle.std.specs.FinMap as finite;
ghost use Rattle.pf_entry.specs.Tables.{ascends};
ghost use Rattle.pf_entry.specs.StartMaps.{terms_in, start_rows, starts_of};
ghost use Rattle.pf_entry.specs.Sets as set;

use pf_base::{Slot, Term};
use std::marker::Model;

/// The first slot that the leader of a term proposed by itself.
#[derive(Clone, Copy, Debug, PartialEq, Eq)]
pub struct Start {
    pub term: Term,
    pub first: Slot,
}

/// The starts of terms, seen as a map from terms to first slots. It is kept as a list in the terms' order.
#[derive(Drop)]
pub struct Starts {
    rows: Vec<Start>,
}

impl Model for Starts {
    ghost use Rattle.std.specs.Prelude.{ℕ, IsTrue};
    ghost use Rattle.std.specs.Ordering.{nat_cmp};
    ghost use Rattle.std.specs.Coded.{coded_ℕ};
    ghost use Rattle.std.specs.FinMap as finite;

    ghost Value = { finite.FinMap nat_cmp ℕ };

    ghost coded = { finite.code coded_ℕ coded_ℕ };

    ghost use Rattle.pf_entry.specs.Tables.{ascends};
    ghost use Rattle.pf_entry.specs.StartMaps.{terms_in, starts_of};

    ghost view = { λ a. starts_of a.rows.items };

    ghost invariant = { λ a. IsTrue (ascends (terms_in a.rows.items)) };
}

impl Starts {
    /// The map of these starts, whose terms ascend strictly.
    pub fn new(rows: Vec<Start>) -> Starts
        requires { IsTrue (ascends (terms_in rows.items)) }
        ensures { result ≡ starts_of rows.items }
    {
        Starts { rows }
    }

    /// The starts, in the order of their terms.
    pub fn as_slice(&self) -> &[Start]
        ensures ascending { IsTrue (ascends (terms_in result.now)) }
        ensures entries { finite.entries self.now ≡ start_rows result.now }
    {
        &self.rows
    }

    /// The starts, in the order of their terms.
    pub fn into_vec(self) -> Vec<Start>
        ensures ascending { IsTrue (ascends (terms_in result.items)) }
        ensures entries { finite.entries self ≡ start_rows result.items }
    {
        let Starts { rows } = self;
        rows
    }
}

/// Slots, seen as a set. It is kept as a list in ascending order.
#[derive(Drop)]
pub struct Slots {
    slots: Vec<Slot>,
}

impl Model for Slots {
    ghost use Rattle.std.specs.Prelude.{IsTrue};
    ghost use Rattle.pf_entry.specs.Tables.{ascends};
    ghost use Rattle.pf_entry.specs.Maps.{Numbers};
    ghost use Rattle.pf_entry.specs.Sets as set;

    ghost Value = { Numbers };

    ghost coded = { set.code };

    ghost view = { λ a. set.from_items a.slots.items };

    ghost invariant = { λ a. IsTrue (ascends a.slots.items) };
}

impl Slots {
    /// The set of these slots, which ascend strictly.
    pub fn new(slots: Vec<Slot>) -> Slots
        requires { IsTrue (ascends slots.items) }
        ensures { result ≡ set.from_items slots.items }
    {
        Slots { slots }
    }

    /// The slots in ascending order.
    pub fn as_slice(&self) -> &[Slot]
        ensures ascending { IsTrue (ascends result.now) }
        ensures items { set.items self.now ≡ result.now }
    {
        &self.slots
    }

    /// The slots in ascending order.
    pub fn into_vec(self) -> Vec<Slot>
        ensures ascending { IsTrue (ascends result.items) }
        ensures items { set.items self ≡ result.items }
    {
        let Slots { slots } = self;
        slots
    }
}
