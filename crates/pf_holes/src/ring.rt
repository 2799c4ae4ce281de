//! A table by slots, in a ring of places.
ghost use Rattle.std.specs.Prelude.{◌≡◌, ◌+◌, ◌<◌, ◌≤◌, IfOk, MatchOption, None, Some, nat_lt, vec_capacity, vec_len};
ghost use Rattle.std.specs.FinMap as map;
ghost use Rattle.pf_holes.specs.Places.{IsRing, ring_of};
ghost use Rattle.pf_holes.specs.Windows.{IsNear, SlotsAreWithin};

use pf_base::{NoMemory, Slot};
use std::alloc::Global;
use std::marker::Model;

/// The places of a ring, and so the slots of a window.
const PLACES: usize = 4096;

/// Values by slots, seen as a finite map.
///
/// Slot s stands in place s mod 4,096, so the slots that are held together are less than 4,096 apart. The memory of
/// all places is taken at once, by `new` alone, and none of it is written before a value comes to a place at or past it.
#[derive(Drop)]
pub struct SlotRing<V> {
    places: Vec<Option<(Slot, V)>>,
    ghost room: { 4096 ≤ vec_capacity places },
}

impl<V> Model for SlotRing<V> {
    ghost use Rattle.std.specs.Ordering.{nat_cmp};
    ghost use Rattle.std.specs.Coded.{coded_ℕ};
    ghost use Rattle.std.specs.FinMap as map;
    ghost use Rattle.pf_holes.specs.Places.{ring_of, IsRing};

    ghost Value = { map.FinMap nat_cmp V };

    ghost coded = { map.code coded_ℕ V.code };

    ghost view = { λ a. ring_of a.places.items };

    ghost invariant = { λ a. IsRing a.places.items };
}

impl<V> SlotRing<V> {
    /// The value of the slot, `None` exactly where the slot has none.
    pub fn get(&self, slot: Slot) -> Option<&V>
        ensures { MatchOption result (map.get self.now slot ≡ None) (λ v. map.get self.now slot ≡ Some v.now) }
    {
        match self.places.get((slot % 4096) as usize)? {
            Some((there, value)) if *there == slot => Some(value),
            _ => None,
        }
    }

    /// Whether the slot has a value.
    pub fn has(&self, slot: Slot) -> bool
        ensures { result ≡ map.contains_key self.now slot }
    {
        self.get(slot).is_some()
    }
}

impl<V: Drop> SlotRing<V> {
    /// A ring without values, and with the memory of all its places.
    pub fn new(alloc: Global) -> Result<SlotRing<V>, NoMemory>
        ensures { IfOk result (λ r. r ≡ map.empty) }
    {
        let places = Vec::with_capacity(alloc, PLACES)?;
        Ok(SlotRing { places })
    }

    /// Gives the slot this value, in place of one that it has.
    pub fn put(&mut self, slot: Slot, value: V)
        requires { IsNear self.old slot }
        ensures { self.new ≡ map.insert self.old slot value }
    {
        let place = (slot % 4096) as usize;
        reach(&mut self.places, place);
        self.places[place] = Some((slot, value));
    }

    /// Drops the value of the slot, if it has one.
    pub fn remove(&mut self, slot: Slot)
        ensures { self.new ≡ map.remove self.old slot }
    {
        if self.has(slot) {
            self.places[(slot % 4096) as usize] = None;
        }
    }

    /// Drops the values of all slots up to `upto`, where all slots lie in the window above `base`. It takes a step
    /// for each slot between the two, at most 4,096.
    pub fn trim(&mut self, base: Slot, upto: Slot)
        requires { SlotsAreWithin base self.old }
        ensures { self.new ≡ map.retain_keys self.old (nat_lt upto) }
    {
        let count = upto.saturating_sub(base).min(4096);
        for passed in 0..count {
            self.remove(base + passed + 1);
        }
    }
}

/// Makes the places up to this one that were not made yet, without values. It takes no memory.
fn reach<V: Drop>(places: &mut Vec<Option<(Slot, V)>>, place: usize)
    requires ring { IsRing places.old.items }
    requires room { 4096 ≤ vec_capacity places.old }
    requires place { place < 4096 }
    ensures ring { IsRing places.new.items }
    ensures room { 4096 ≤ vec_capacity places.new }
    ensures made { place < vec_len places.new }
    ensures same { ring_of places.new.items ≡ ring_of places.old.items }
{
    while places.len() <= place {
        places.push_reserved(None);
    }
}
