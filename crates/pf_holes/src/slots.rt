//! Sets of slots.
ghost use Rattle.std.specs.Prelude.{ℕ, IfOk, Ok, ◌-◌, ◌≡◌, ◌+◌, ◌<◌, ◌≤◌, ◌^◌, All, OnErr, OnOk, false, insert, nat_eq, nat_le, nat_lt, true, ◌&&◌};
ghost use Rattle.std.specs.Prelude.{length, slice_index};
ghost use Rattle.std.specs.List.{filter, list_any, range_with_len};
ghost use Rattle.std.specs.VecDeque.{deque_capacity, deque_len};
ghost use Rattle.pf_entry.specs.Sets as set;
ghost use Rattle.pf_holes.specs.SlotSets.{AreAbove, AreSingle, IsPlaceIn, SlotsAreRising, IsUpto, slots_upto};

use pf_base::{NoMemory, Slot};
use pf_entry::Slots;
use std::alloc::Global;
use std::collections::VecDeque;
use std::marker::Model;

/// A set of slots, as those that a server has applied: all from 1 up to one of them, and single ones above it.
///
/// A single slot is forgotten as soon as the slots from 1 reach it. Contracts see the set, and how many slots it
/// takes before it wants memory.
#[derive(Drop)]
pub struct SlotSet {
    /// Each slot from 1 to this one is in the set.
    upto: Slot,
    /// The others, in ascending order.
    singles: VecDeque<Slot>,
}

impl Model for SlotSet {
    ghost use Rattle.std.specs.Prelude.{◌-◌};
    ghost use Rattle.std.specs.VecDeque.{deque_len, deque_capacity};
    ghost use Rattle.pf_holes.specs.SlotSets.{SlotTable, slot_table_code, slots_upto, AreSingle};

    ghost Value = { SlotTable };

    ghost coded = { slot_table_code };

    ghost view = { λ a. record { slots = slots_upto a.upto a.singles.items; spare = deque_capacity a.singles - deque_len a.singles } };

    ghost invariant = { λ a. AreSingle a.upto a.singles.items };
}

impl SlotSet {
    /// The empty set.
    pub fn new(alloc: Global) -> SlotSet
        ensures { result.slots ≡ set.empty }
    {
        SlotSet {
            upto: 0,
            singles: VecDeque::new(alloc),
        }
    }

    /// The slots from 1 to `base`, with others above it. It takes no memory.
    pub fn with_prefix(base: Slot, slots: Slots) -> SlotSet
        requires { (q : ℕ) → set.contains slots q ≡ true → base < q }
        ensures { result.slots ≡ slots_upto base (set.items slots) }
    {
        let slots = slots.into_vec();
        let mut singles = VecDeque::from_vec(slots);
        let upto = joined(base, &mut singles);
        SlotSet { upto, singles }
    }

    /// A copy of the set.
    pub fn try_clone(&self, alloc: Global) -> Result<SlotSet, NoMemory>
        ensures { IfOk result (λ s. s.slots ≡ self.now.slots) }
    {
        let singles = self.singles.iter().copied().collect(alloc)?;
        Ok(SlotSet {
            upto: self.upto,
            singles,
        })
    }

    /// Whether the slot is in the set. It takes a binary search at most, and none where the single slots are a run.
    pub fn has(&self, slot: Slot) -> bool
        ensures { result ≡ set.contains self.now.slots slot }
    {
        is_in_prefix(self.upto, slot) || is_among(&self.singles, slot)
    }

    /// Whether the slot is in the set, where `below` is how many slots of the set are thought to stand between the prefix and the slot: if they are as many, and
    /// the slot is in the set, it takes no search.
    pub fn has_behind(&self, slot: Slot, below: usize) -> bool
        ensures { result ≡ set.contains self.now.slots slot }
    {
        is_at(&self.singles, below, slot) || self.has(slot)
    }

    /// The greatest slot up to which all slots are in the set; 0 where slot 1 is not.
    pub fn upto(&self) -> Slot
        ensures { IsUpto self.now.slots result }
    {
        self.upto
    }

    /// A slot above which the set has none.
    pub fn last(&self) -> Slot
        ensures { (q : ℕ) → result < q → set.contains self.now.slots q ≡ false }
    {
        greatest(self.upto, &self.singles)
    }

    /// The slots above `base`, in a list. It takes a step for each of them.
    pub fn above(&self, alloc: Global, base: Slot) -> Result<Slots, NoMemory>
        ensures { IfOk result (λ slots. slots ≡ set.retain self.now.slots (nat_lt base)) }
    {
        let mut slots = slots_between(alloc, base, self.upto)?;
        let singles = those_above(alloc, base, &self.singles)?;
        slots.extend_from_slice(&singles)?;
        Ok(Slots::new(slots))
    }

    /// Takes memory for `more` slots, where there is not room for them. The set is the same afterwards, whatever it
    /// answers.
    pub fn reserve(&mut self, more: usize) -> Result<(), NoMemory>
        ensures room { OnOk result (more ≤ self.new.spare) }
        ensures short { OnErr result (self.old.spare < more) }
        ensures same { self.new.slots ≡ self.old.slots }
        ensures kept { self.old.spare ≤ self.new.spare }
    {
        Ok(self.singles.reserve(more)?)
    }

    /// Puts the slot into the set.
    pub fn add(&mut self, slot: Slot)
        requires { set.contains self.old.slots slot ≡ false → 1 ≤ self.old.spare }
        ensures slots { self.new.slots ≡ set.insert self.old.slots slot }
        ensures spare { self.old.spare ≤ self.new.spare + 1 }
    {
        if is_in_prefix(self.upto, slot) {
            return;
        }
        if let Err(place) = place_of(&self.singles, slot) {
            put_at(&mut self.singles, place, slot);
            self.upto = joined(self.upto, &mut self.singles);
        }
    }
}

/// The slots above `base` up to `upto`.
fn slots_between(alloc: Global, base: Slot, upto: Slot) -> Result<Vec<Slot>, NoMemory>
    ensures { IfOk result (λ slots. slots.items ≡ range_with_len (base + 1) (upto - base)) }
{
    let mut slots = Vec::new(alloc);
    for passed in 0..upto.saturating_sub(base) {
        slots.push(base + passed + 1)?;
    }
    Ok(slots)
}

/// Those of these slots that are above `base`.
fn those_above(alloc: Global, base: Slot, slots: &VecDeque<Slot>) -> Result<Vec<Slot>, NoMemory>
    ensures { IfOk result (λ high. high.items ≡ filter (nat_lt base) slots.now.items) }
{
    let high = slots.iter().copied().filter(|slot| base < *slot);
    Ok(high.collect(alloc)?)
}

/// Whether the slot is one of those from 1 to `upto`.
fn is_in_prefix(upto: Slot, slot: Slot) -> bool
    ensures { result ≡ (nat_lt 0 slot && nat_le slot upto) }
{
    0 < slot && slot <= upto
}

/// Whether the slot is one of these.
fn is_among(slots: &VecDeque<Slot>, slot: Slot) -> bool
    requires { SlotsAreRising slots.now.items }
    ensures { result ≡ list_any (λ s. nat_eq s slot) slots.now.items }
{
    place_of(slots, slot).is_ok()
}

/// The greatest of these and `upto`.
fn greatest(upto: Slot, slots: &VecDeque<Slot>) -> Slot
    requires { SlotsAreRising slots.now.items }
    ensures upto { upto ≤ result }
    ensures each { (k : ℕ) → k < length slots.now.items → slice_index slots.now.items k ≤ result }
{
    match slots.back() {
        Some(last) => upto.max(*last),
        None => upto,
    }
}

/// Whether the slot stands at this place among these.
fn is_at(slots: &VecDeque<Slot>, place: usize, slot: Slot) -> bool
    ensures { result ≡ true → IsPlaceIn slots.now.items slot (Ok place) }
{
    if slots.get(place) == Some(&slot) {
        return true;
    }
    false
}

/// The place of the slot among these, or the one at which it would stand.
///
/// Slots are mostly applied in order: then the slot is past one of the ends, or these are a run and its place is its distance from the first.
fn place_of(slots: &VecDeque<Slot>, slot: Slot) -> Result<usize, usize>
    requires { SlotsAreRising slots.now.items }
    ensures { IsPlaceIn slots.now.items slot result }
{
    let Some(first) = slots.front() else {
        return Err(0);
    };
    if slot < *first {
        return Err(0);
    }
    if let Some(last) = slots.back()
        && *last < slot
    {
        return Err(slots.len());
    }
    let place = (slot - *first) as usize;
    if slots.get(place) == Some(&slot) {
        return Ok(place);
    }
    slots.binary_search(&slot)
}

/// Puts the slot at its place among others, where there is room for it.
fn put_at(slots: &mut VecDeque<Slot>, place: usize, slot: Slot)
    requires place { place ≤ deque_len slots.old }
    requires room { deque_len slots.old < deque_capacity slots.old }
    ensures items { slots.new.items ≡ insert slots.old.items place slot }
    ensures len { deque_len slots.new ≡ deque_len slots.old + 1 }
    ensures capacity { deque_capacity slots.old ≤ deque_capacity slots.new }
{
    let _ = slots.insert(place, slot);
}

/// Takes the slots that come next to the prefix out of the single ones, and tells how far the prefix then goes.
fn joined(mut upto: Slot, singles: &mut VecDeque<Slot>) -> Slot
    requires rising { SlotsAreRising singles.old.items }
    requires above { AreAbove upto singles.old.items }
    requires fits { All (λ s. s < 2 ^ 64) singles.old.items }
    ensures single { AreSingle result singles.new.items }
    ensures slots { slots_upto result singles.new.items ≡ slots_upto upto singles.old.items }
    ensures len { deque_len singles.new ≤ deque_len singles.old }
    ensures capacity { deque_capacity singles.new ≡ deque_capacity singles.old }
{
    while let Ok(place) = place_of(singles, upto.saturating_add(1)) {
        singles.remove(place);
        upto += 1;
    }
    upto
}
