//! A log with holes.
ghost use Rattle.std.specs.Prelude.{◌≡◌, ◌↔◌, ◌+◌, ◌<◌, ◌≤◌, ℕ, if◌then◌else◌, IfOk, IfSome, IsErr, MatchOption, None, Some, false, nat_lt, true};
ghost use Rattle.std.specs.FinMap as map;
ghost use Rattle.pf_entry.specs.Sets as set;
ghost use Rattle.pf_entry.specs.Records.{has_term};
ghost use Rattle.pf_holes.specs.Windows.{SlotsAreWithin};
ghost use Rattle.pf_holes.specs.HoleLogs.{IsNextSlot};

use crate::{SlotRing, WindowFull};
use pf_base::{NoMemory, Slot, Term};
use pf_entry::{Entry, EntryMap};
use std::alloc::Global;
use std::marker::Model;

/// The entries of a server in the window of 4,096 slots above its checkpoint, the base, and which of them are
/// committed (ParallelRaft: a log that may have holes).
///
/// Contracts see the base, the entries as a finite map and the committed slots as a set. Only `new` and `copied` take memory.
#[derive(Drop)]
pub struct HoleLog {
    base: Slot,
    /// No slot above this one is held.
    last: Slot,
    entries: SlotRing<Entry>,
    committed: SlotRing<()>,
}

impl Model for HoleLog {
    ghost use Rattle.pf_holes.specs.HoleLogs.{Holes, holes_code, LogIsHeld};

    ghost Value = { Holes };

    ghost coded = { holes_code };

    ghost view = { λ a. record { base = a.base; entries = a.entries; committed = a.committed } };

    ghost invariant = { λ a. LogIsHeld a.base a.last a.entries a.committed };
}

impl HoleLog {
    /// The log without entries above base 0, with the memory of its whole window.
    pub fn new(alloc: Global) -> Result<HoleLog, NoMemory>
        ensures { IfOk result (λ log. log ≡ record { base = 0; entries = map.empty; committed = set.empty }) }
    {
        Ok(HoleLog {
            base: 0,
            last: 0,
            entries: SlotRing::new(alloc)?,
            committed: SlotRing::new(alloc)?,
        })
    }

    /// The slot above which the window lies.
    pub fn base(&self) -> Slot
        ensures base { result ≡ self.now.base }
        ensures within { SlotsAreWithin self.now.base self.now.entries }
        ensures held { (q : ℕ) → set.contains self.now.committed q ≡ true → map.contains_key self.now.entries q ≡ true }
    {
        self.base
    }

    /// A slot above which none is held.
    pub fn last(&self) -> Slot
        ensures { (q : ℕ) → map.contains_key self.now.entries q ≡ true → q ≤ result }
    {
        self.last
    }

    /// Whether the slot may be put: `WindowFull` (30) exactly where it is more than 4,096 above the base.
    pub fn room(&self, slot: Slot) -> Result<(), WindowFull>
        ensures { IsErr result ↔ (self.now.base + 4096 < slot) }
    {
        if slot.saturating_sub(self.base) > 4096 {
            return Err(WindowFull);
        }
        Ok(())
    }

    /// Puts the entry in place of one of its slot. A committed slot stays so.
    pub fn put(&mut self, entry: Entry)
        requires above { self.old.base < entry.slot }
        requires room { entry.slot ≤ self.old.base + 4096 }
        ensures { self.new ≡ record self.old { entries = map.insert self.old.entries entry.slot entry } }
    {
        self.last = self.last.max(entry.slot);
        self.entries.put(entry.slot, entry);
    }

    /// The entry of the slot, `None` exactly where it is not held.
    pub fn get(&self, slot: Slot) -> Option<&Entry>
        ensures entry { MatchOption result (map.get self.now.entries slot ≡ None) (λ e. map.get self.now.entries slot ≡ Some e.now) }
        ensures own_slot { IfSome result (λ e. e.now.slot ≡ slot) }
    {
        self.entries.get(slot)
    }

    /// Whether the slot holds an entry of this term.
    pub fn holds(&self, slot: Slot, term: Term) -> bool
        ensures { result ≡ has_term term (map.get self.now.entries slot) }
    {
        match self.entries.get(slot) {
            Some(entry) => entry.term == term,
            None => false,
        }
    }

    /// The slot is committed from now on, where it holds an entry of this term, and tells whether it does.
    pub fn commit(&mut self, slot: Slot, term: Term) -> bool
        ensures committed { result ≡ has_term term (map.get self.old.entries slot) }
        ensures log { self.new ≡ record self.old { committed = if result then set.insert self.old.committed slot else self.old.committed } }
    {
        let held = self.holds(slot, term);
        if held {
            self.committed.put(slot, ());
        }
        held
    }

    /// Whether the slot is committed. It then holds an entry.
    pub fn is_committed(&self, slot: Slot) -> bool
        ensures committed { result ≡ set.contains self.now.committed slot }
        ensures held { result ≡ true → map.contains_key self.now.entries slot ≡ true }
    {
        self.committed.has(slot)
    }

    /// Moves the base up to `base` and drops what is not above it, in a step for each slot passed, at most 4,096.
    pub fn trim(&mut self, base: Slot)
        requires { self.old.base ≤ base }
        ensures { self.new ≡ record {
          base = base;
          entries = map.retain_keys self.old.entries (nat_lt base);
          committed = set.retain self.old.committed (nat_lt base);
        } }
    {
        self.entries.trim(self.base, base);
        self.committed.trim(self.base, base);
        self.base = base;
    }

    /// The least slot above `after` that is held. A walk over all takes a step for each slot of the window.
    pub fn next_after(&self, after: Slot) -> Option<Slot>
        ensures { MatchOption result ((q : ℕ) → after < q → map.contains_key self.now.entries q ≡ false) (IsNextSlot self.now.entries after) }
    {
        for slot in after.max(self.base)..self.last {
            if self.entries.has(slot + 1) {
                return Some(slot + 1);
            }
        }
        None
    }

    /// A copy of the entries, as a vote has them. Their sectors are shared.
    pub fn copied(&self, alloc: Global) -> Result<EntryMap, NoMemory>
        ensures { IfOk result (λ entries. entries ≡ self.now.entries) }
    {
        let most = self.last.saturating_sub(self.base);
        let mut rows = Vec::with_capacity(alloc, most as usize)?;
        for slot in self.base..self.last {
            if let Some(entry) = self.entries.get(slot + 1) {
                rows.push(entry.try_clone(alloc)?)?;
            }
        }
        Ok(EntryMap::new(rows))
    }
}
