//! Values of a few slots.
ghost use Rattle.std.specs.Prelude.{◌≡◌, IsTrue, MatchOption, None, OnErr, OnOk, Some};
ghost use Rattle.std.specs.FinMap as finite;
ghost use Rattle.pf_entry.specs.Tables.{ascends};
ghost use Rattle.pf_holes.specs.SlotSets.{IsPlaceIn};
ghost use Rattle.pf_server_tables.specs.FewTables.{slots_in};

use pf_base::{NoMemory, Slot};
use std::alloc::Global;
use std::marker::Model;

/// Values of a few slots, seen as a finite map. Only `put` takes memory, as much as the values want.
#[derive(Drop)]
pub struct Few<V> {
    /// In the order of the slots.
    rows: Vec<(Slot, V)>,
}

impl<V> Model for Few<V> {
    ghost use Rattle.std.specs.Prelude.{IsTrue};
    ghost use Rattle.std.specs.Ordering.{nat_cmp};
    ghost use Rattle.std.specs.Coded.{coded_ℕ};
    ghost use Rattle.std.specs.FinMap as finite;
    ghost use Rattle.pf_entry.specs.Tables.{ascends};
    ghost use Rattle.pf_server_tables.specs.FewTables.{few_of, slots_in};

    ghost Value = { finite.FinMap nat_cmp V };

    ghost coded = { finite.code coded_ℕ V.code };

    ghost view = { λ a. few_of a.rows.items };

    ghost invariant = { λ a. IsTrue (ascends (slots_in a.rows.items)) };
}

impl<V> Few<V> {
    /// Whether the slot has a value.
    pub fn has(&self, slot: Slot) -> bool
        ensures { result ≡ finite.contains_key self.now slot }
    {
        place_of(&self.rows, slot).is_ok()
    }
}

impl<V: Drop> Few<V> {
    /// No values.
    pub fn new(alloc: Global) -> Few<V>
        ensures { result ≡ finite.empty }
    {
        Few {
            rows: Vec::new(alloc),
        }
    }

    /// Gives the slot this value, in place of one that it has. `NoMemory` (1) leaves the values as they were.
    pub fn put(&mut self, slot: Slot, value: V) -> Result<(), NoMemory>
        ensures ok { OnOk result (self.new ≡ finite.insert self.old slot value) }
        ensures err { OnErr result (self.new ≡ self.old) }
    {
        match place_of(&self.rows, slot) {
            Ok(place) => self.rows[place].1 = value,
            Err(place) => self.rows.insert(place, (slot, value))?,
        }
        Ok(())
    }

    /// Takes out the value of the slot, `None` exactly where the slot has none.
    pub fn take(&mut self, slot: Slot) -> Option<V>
        ensures taken { MatchOption result (finite.get self.old slot ≡ None) (λ v. finite.get self.old slot ≡ Some v) }
        ensures rest { self.new ≡ finite.remove self.old slot }
    {
        let Ok(place) = place_of(&self.rows, slot) else {
            return None;
        };
        let (_, value) = self.rows.remove(place);
        Some(value)
    }

    /// Drops the value of the slot, if it has one.
    pub fn remove(&mut self, slot: Slot)
        ensures { self.new ≡ finite.remove self.old slot }
    {
        let _ = self.take(slot);
    }
}

/// The place of the slot's row, or the one at which it would stand.
fn place_of<V>(rows: &[(Slot, V)], slot: Slot) -> Result<usize, usize>
    requires { IsTrue (ascends (slots_in rows.now)) }
    ensures { IsPlaceIn (slots_in rows.now) slot result }
{
    rows.binary_search_by_key(&slot, |row| row.0)
}
