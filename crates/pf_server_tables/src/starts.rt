//! Starts by term.
ghost use Rattle.std.specs.Prelude.{◌≡◌, ◌+◌, ◌≤◌, IfOk, OnErr, OnOk, false, true};
ghost use Rattle.std.specs.FinMap as finite;
ghost use Rattle.pf_entry.specs.Records.{add_start};

use pf_base::{NoMemory, Slot, Term};
use pf_entry::{Start, Starts};
use std::alloc::Global;
use std::marker::Model;

/// The first new slot of each term that a server knows of, in the order of the terms. Contracts see the map, and how many
/// starts it takes before it wants memory.
#[derive(Drop)]
pub struct StartTable {
    rows: Vec<Start>,
}

impl Model for StartTable {
    ghost use Rattle.std.specs.Prelude.{◌-◌, IsTrue, vec_capacity, vec_len};
    ghost use Rattle.pf_entry.specs.Tables.{ascends};
    ghost use Rattle.pf_entry.specs.StartMaps.{terms_in, starts_of};
    ghost use Rattle.pf_server_tables.specs.StartTables.{StartRoom, room_code};

    ghost Value = { StartRoom };

    ghost coded = { room_code };

    ghost view = { λ a. record { starts = starts_of a.rows.items; spare = vec_capacity a.rows - vec_len a.rows } };

    ghost invariant = { λ a. IsTrue (ascends (terms_in a.rows.items)) };
}

impl StartTable {
    /// No start.
    pub fn new(alloc: Global) -> StartTable
        ensures { result.starts ≡ finite.empty }
    {
        StartTable {
            rows: Vec::new(alloc),
        }
    }

    /// These starts. It takes no memory.
    pub fn from_starts(starts: Starts) -> StartTable
        ensures { result.starts ≡ starts }
    {
        StartTable {
            rows: starts.into_vec(),
        }
    }

    /// Takes memory for one start more, where there is no room for it. The starts are the same afterwards, whatever it answers:
    /// `NoMemory` (1) comes only where there is no room.
    pub fn reserve(&mut self) -> Result<(), NoMemory>
        ensures room { OnOk result (1 ≤ self.new.spare) }
        ensures short { OnErr result (self.old.spare ≡ 0) }
        ensures same { self.new.starts ≡ self.old.starts }
        ensures kept { self.old.spare ≤ self.new.spare }
    {
        Ok(self.rows.reserve(1)?)
    }

    /// Puts the term's start, in place of one of its term. It takes no memory: a start of a new term wants room for it.
    pub fn put(&mut self, term: Term, first: Slot)
        requires { finite.contains_key self.old.starts term ≡ false → 1 ≤ self.old.spare }
        ensures starts { self.new.starts ≡ add_start self.old.starts term first }
        ensures spare { self.old.spare ≤ self.new.spare + 1 }
        ensures same_room { finite.contains_key self.old.starts term ≡ true → self.old.spare ≤ self.new.spare }
    {
        match self.rows.binary_search_by_key(&term, |row| row.term) {
            Ok(place) => self.rows[place].first = first,
            Err(place) => {
                // There is room, so this does not fail.
                let _ = self.rows.insert(place, Start { term, first });
            }
        }
    }

    /// How many starts there are.
    pub fn len(&self) -> usize
        ensures { result ≡ finite.len self.now.starts }
    {
        self.rows.len()
    }

    /// A copy of the starts, as a vote has them. `NoMemory` (1) where there is no memory for it.
    pub fn copied(&self, alloc: Global) -> Result<Starts, NoMemory>
        ensures { IfOk result (λ starts. starts ≡ self.now.starts) }
    {
        Ok(Starts::new(Vec::from_slice(alloc, &self.rows)?))
    }
}
