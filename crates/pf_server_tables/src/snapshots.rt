//! Snapshots by mark.
ghost use Rattle.std.specs.Prelude.{◌≡◌, IfOk, MatchOption, None, Some};
ghost use Rattle.std.specs.FinMap as finite;
ghost use Rattle.pf_protocol.specs.Saving.{four_greatest};

use crate::SectorTable;
use pf_base::{NoMemory, Slot};
use std::alloc::Global;
use std::marker::Model;

/// The sectors at the four greatest marks that a server applied. Seen as a map from the marks' slots. Only `new` takes memory.
#[derive(Drop)]
pub struct Snapshots {
    /// In the order of the slots, with room for one more than four.
    rows: Vec<(Slot, SectorTable)>,
}

impl Model for Snapshots {
    ghost use Rattle.std.specs.Prelude.{List, ℕ, vec_capacity};
    ghost use Rattle.std.specs.Ordering.{nat_cmp};
    ghost use Rattle.std.specs.FinMap as finite;
    ghost use Rattle.pf_server_tables.specs.SnapshotTables.{snapshots_of, snapshots_code, AreFew};

    ghost Value = { finite.FinMap nat_cmp (List (List ℕ)) };

    ghost coded = { snapshots_code };

    ghost view = { λ a. snapshots_of a.rows.items };

    ghost invariant = { λ a. AreFew (vec_capacity a.rows) a.rows.items };
}

impl Snapshots {
    /// No snapshot, and room for all. `NoMemory` (1) where there is no memory for it.
    pub fn new(alloc: Global) -> Result<Snapshots, NoMemory>
        ensures { IfOk result (λ table. table ≡ finite.empty) }
    {
        Ok(Snapshots {
            rows: Vec::with_capacity(alloc, 5)?,
        })
    }

    /// Keeps the sectors of a mark, in place of those of the same mark, and then of all marks the four greatest: a mark below
    /// four others is not kept.
    pub fn keep(&mut self, mark: Slot, sectors: SectorTable)
        ensures { self.new ≡ four_greatest (finite.insert self.old mark sectors) }
    {
        match self.rows.binary_search_by_key(&mark, |row| row.0) {
            Ok(place) => self.rows[place].1 = sectors,
            Err(place) => {
                // There is room, so this does not fail.
                let _ = self.rows.insert(place, (mark, sectors));
                if self.rows.len() > 4 {
                    self.rows.remove(0);
                }
            }
        }
    }

    /// The sectors at this mark, `None` exactly where none are kept.
    pub fn get(&self, mark: Slot) -> Option<&SectorTable>
        ensures { MatchOption result (finite.get self.now mark ≡ None) (λ sectors. finite.get self.now mark ≡ Some sectors.now) }
    {
        match self.rows.binary_search_by_key(&mark, |row| row.0) {
            Ok(place) => Some(&self.rows[place].1),
            Err(_) => None,
        }
    }

    /// Drops them all.
    pub fn clear(&mut self)
        ensures { self.new ≡ finite.empty }
    {
        self.rows.clear();
    }
}
