//! Memory for sectors to come.
ghost use Rattle.std.specs.Prelude.{◌≡◌, ◌≤◌, IfOk, length, vec_capacity};

use pf_base::{NoMemory, Sector};
use std::alloc::Global;
use std::marker::Model;

/// Memory for some sectors, seen as their number. Nothing is written in it before it is filled.
#[derive(Drop)]
pub struct CopyRoom {
    sectors: Vec<Sector>,
}

impl Model for CopyRoom {
    ghost use Rattle.std.specs.Prelude.{◌≡◌, ℕ, [], vec_capacity};

    ghost Value = { ℕ };

    ghost view = { λ r. vec_capacity r.sectors };

    ghost invariant = { λ r. r.sectors.items ≡ [] };
}

impl CopyRoom {
    /// Takes memory for `count` sectors. `NoMemory` (1) where there is none.
    pub fn new(alloc: Global, count: usize) -> Result<CopyRoom, NoMemory>
        ensures { IfOk result (λ room. room ≡ count) }
    {
        let sectors = Vec::with_capacity(alloc, count)?;
        Ok(CopyRoom { sectors })
    }

    /// A copy of these sectors, in this memory. It takes no other, and what is left of it stays with the copy.
    pub(crate) fn fill(self, sectors: &[Sector]) -> Vec<Sector>
        requires { length sectors.now ≤ self }
        ensures items { result.items ≡ sectors.now }
        ensures capacity { self ≤ vec_capacity result }
    {
        let mut copy = self.sectors;
        // There is room, so this does not fail.
        let _ = copy.extend_from_slice(sectors);
        copy
    }
}
