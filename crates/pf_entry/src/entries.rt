//! Log entries.
ghost use Rattle.std.specs.Prelude.{◌≡◌, ◌++◌, [], ◌∷◌, IfOk, IsTrue, OnOk, map};
ghost use Rattle.std.specs.FinMap as finite;
ghost use Rattle.pf_entry.specs.Tables.{ascends};
ghost use Rattle.pf_entry.specs.EntryMaps.{slots_in, entry_rows, log_of};

use crate::{Op, Starts};
use pf_base::{NoMemory, Range, Slot, Term};
use smallvec::SmallVec;
use std::alloc::Global;
use std::marker::Model;

/// A slot before an entry's own, with the range that the entry's leader had there.
#[derive(Clone, Copy, Debug, PartialEq, Eq)]
pub struct Named {
    pub slot: Slot,
    pub range: Range,
}

impl Default for Named {
    /// No slot, and no sector.
    fn default() -> Self {
        Named {
            slot: 0,
            range: Range::none(),
        }
    }
}

/// How many names an entry keeps in itself: as many as a volume's entries have, where its script says nothing else.
const FEW: usize = 2;

/// The slots that an entry names (PolarFS: the look-behind buffer), in ascending order.
#[derive(Drop)]
pub struct Look {
    named: SmallVec<Named, FEW>,
}

impl Model for Look {
    ghost use Rattle.std.specs.Prelude.{List};
    ghost use Rattle.pf_entry.specs.declared.entries.Named.{Named};

    ghost Value = { List Named };

    ghost view = { λ a. a.named.items };
}

impl Look {
    /// No slot yet, and room for so many. `NoMemory` (1) where there is none.
    pub fn with_room(alloc: Global, count: usize) -> Result<Look, NoMemory>
        ensures { IfOk result (λ look. look ≡ []) }
    {
        let named = SmallVec::with_capacity(alloc, count)?;
        Ok(Look { named })
    }

    /// None at all. It takes no memory.
    pub fn none(alloc: Global) -> Look
        ensures { result ≡ [] }
    {
        Look {
            named: SmallVec::new(alloc),
        }
    }

    /// Names one more.
    pub fn push(&mut self, name: Named) -> Result<(), NoMemory>
        ensures { OnOk result (self.new ≡ self.old ++ name ∷ []) }
    {
        Ok(self.named.push(name)?)
    }

    pub fn as_slice(&self) -> &[Named]
        ensures { result.now ≡ self.now }
    {
        self.named.as_slice()
    }

    pub fn try_clone(&self, alloc: Global) -> Result<Look, NoMemory>
        ensures { IfOk result (λ look. look ≡ self.now) }
    {
        let named = SmallVec::from_slice(alloc, self.named.as_slice())?;
        Ok(Look { named })
    }
}

/// What a slot has in a log.
///
/// `first` is the first slot that the leader of `term` proposed by itself. From there on entries are new, below it
/// they were merged from the logs of two servers, and name no slots.
#[derive(Drop)]
pub struct Entry {
    pub slot: Slot,
    pub term: Term,
    pub first: Slot,
    pub look: Look,
    pub op: Op,
}

impl Entry {
    /// A copy of the entry. Its sectors are shared.
    pub fn try_clone(&self, alloc: Global) -> Result<Entry, NoMemory>
        ensures { IfOk result (λ entry. entry ≡ self.now) }
    {
        Ok(Entry {
            slot: self.slot,
            term: self.term,
            first: self.first,
            look: self.look.try_clone(alloc)?,
            op: self.op.try_clone()?,
        })
    }
}

/// Entries in a row, as a merge makes them.
#[derive(Drop)]
pub struct Entries {
    rows: Vec<Entry>,
}

impl Model for Entries {
    ghost use Rattle.std.specs.Prelude.{List};
    ghost use Rattle.pf_entry.specs.declared.entries.Entry.{Entry};

    ghost Value = { List Entry };

    ghost view = { λ a. a.rows.items };
}

impl Entries {
    pub fn new(rows: Vec<Entry>) -> Entries
        ensures { result ≡ rows.items }
    {
        Entries { rows }
    }

    pub fn as_slice(&self) -> &[Entry]
        ensures { result.now ≡ self.now }
    {
        &self.rows
    }

    pub fn into_vec(self) -> Vec<Entry>
        ensures { result.items ≡ self }
    {
        let Entries { rows } = self;
        rows
    }
}

/// A log, with one entry for each slot that it holds, seen as a map from slots. It is kept as a list in the slots' order.
#[derive(Drop)]
pub struct EntryMap {
    rows: Vec<Entry>,
}

impl Model for EntryMap {
    ghost use Rattle.std.specs.Prelude.{IsTrue};
    ghost use Rattle.std.specs.Ordering.{nat_cmp};
    ghost use Rattle.std.specs.Coded.{coded_ℕ};
    ghost use Rattle.std.specs.FinMap as finite;
    ghost use Rattle.pf_entry.specs.declared.entries.Entry.{Entry};
    ghost use Rattle.pf_entry.specs.Tables.{ascends};
    ghost use Rattle.pf_entry.specs.EntryMaps.{entry_code, slots_in, log_of};

    ghost Value = { finite.FinMap nat_cmp Entry };

    ghost coded = { finite.code coded_ℕ entry_code };

    ghost view = { λ a. log_of a.rows.items };

    ghost invariant = { λ a. IsTrue (ascends (slots_in a.rows.items)) };
}

impl EntryMap {
    /// A log of these entries, whose slots ascend strictly.
    pub fn new(rows: Vec<Entry>) -> EntryMap
        requires { IsTrue (ascends (slots_in rows.items)) }
        ensures { result ≡ log_of rows.items }
    {
        EntryMap { rows }
    }

    /// Its entries, in the order of their slots.
    pub fn as_slice(&self) -> &[Entry]
        ensures ascending { IsTrue (ascends (slots_in result.now)) }
        ensures entries { finite.entries self.now ≡ entry_rows result.now }
    {
        &self.rows
    }

    /// Its entries, in the order of their slots.
    pub fn into_vec(self) -> Vec<Entry>
        ensures ascending { IsTrue (ascends (slots_in result.items)) }
        ensures entries { finite.entries self ≡ entry_rows result.items }
    {
        let EntryMap { rows } = self;
        rows
    }
}

/// What a voter hands to a candidate: its checkpoint, its starts and its log above the checkpoint.
#[derive(Drop)]
pub struct VoteLog {
    pub base: Slot,
    pub starts: Starts,
    pub log: EntryMap,
}
