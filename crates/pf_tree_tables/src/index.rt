//! Numbers in the order of their values.

use crate::sorted::{greatest_to, least_from, put, take};
use pf_base::NoMemory;
use std::alloc::Global;
use std::cmp::Reverse;

/// A number with its value.
#[derive(Clone, Copy, PartialEq, Eq, PartialOrd, Ord)]
pub(crate) struct Row<T> {
    pub(crate) value: T,
    pub(crate) number: u32,
}

/// Numbers in the order of their values. Those with the blank value are free, and stand apart, the least last, so that taking that one
/// moves no other.
#[derive(Drop)]
pub(crate) struct Index<T: Ord + Copy> {
    blank: T,
    rows: Vec<Row<T>>,
    free: Vec<Reverse<u32>>,
}

impl<T: Ord + Copy> Index<T> {
    ghost use Rattle.std.specs.Prelude.{◌≡◌, ◌+◌, ◌≤◌, ℕ, IfOk, MatchOption, length, replicate};
    ghost use Rattle.pf_tree_tables.specs.Index.{IndexHasRoom, HasValue, IsIndexOf, IndexIsInOrder, IndexIsKept, IsLeastWith, IsNowhere, PutsIn, IndexStands, TakesOut};

    /// So many numbers that are all free, with room for a row of each.
    pub(crate) fn all_free(alloc: Global, count: u32, blank: T) -> Result<Index<T>, NoMemory>
        ensures index { IfOk result (λ index. IsIndexOf T.cmp (replicate count blank) index) }
        ensures room { IfOk result (IndexHasRoom count) }
    {
        let rows = Vec::with_capacity(alloc, count as usize)?;
        let mut free = Vec::with_capacity(alloc, count as usize)?;
        for number in (0..count).rev() {
            free.push(Reverse(number))?;
        }
        Ok(Index { blank, rows, free })
    }

    /// A copy, with room for so many rows and free numbers.
    pub(crate) fn copied(&self, alloc: Global, count: usize) -> Result<Index<T>, NoMemory>
        ensures blank { IfOk result (λ index. index.blank ≡ self.now.blank) }
        ensures rows { IfOk result (λ index. index.rows.items ≡ self.now.rows.items) }
        ensures free { IfOk result (λ index. index.free.items ≡ self.now.free.items) }
        ensures room { IfOk result (IndexHasRoom count) }
    {
        let mut rows = Vec::with_capacity(alloc, count)?;
        rows.extend_from_slice(&self.rows)?;
        let mut free = Vec::with_capacity(alloc, count)?;
        free.extend_from_slice(&self.free)?;
        Ok(Index {
            blank: self.blank,
            rows,
            free,
        })
    }

    /// Takes a number with its value out of where it stands.
    pub(crate) fn take(&mut self, row: &Row<T>)
        requires order { IndexIsInOrder T.cmp self.old }
        requires there { IndexStands T.cmp self.old row.now }
        ensures taken { TakesOut T.cmp self.old row.now self.new }
        ensures kept { IndexIsKept self.old self.new }
    {
        if row.value == self.blank {
            take(&mut self.free, &Reverse(row.number));
        } else {
            take(&mut self.rows, row);
        }
    }

    /// Puts a number with its value where it belongs. There is room for it, so this takes no memory.
    pub(crate) fn put(&mut self, row: Row<T>)
        requires order { IndexIsInOrder T.cmp self.old }
        requires nowhere { IsNowhere row.number self.old }
        requires room { IndexHasRoom (length self.old.rows.items + length self.old.free.items + 1) self.old }
        ensures put { PutsIn T.cmp self.old row self.new }
        ensures kept { IndexIsKept self.old self.new }
    {
        if row.value == self.blank {
            put(&mut self.free, Reverse(row.number));
        } else {
            put(&mut self.rows, row);
        }
    }

    /// The least number from `first` on with this value.
    pub(crate) fn least(&self, value: T, first: u32) -> Option<u32>
        requires { IndexIsInOrder T.cmp self.now }
        ensures { MatchOption result ((k : ℕ) → first ≤ k → HasValue T.cmp self.now value k → ⊥) (IsLeastWith T.cmp self.now value first) }
    {
        if value == self.blank {
            let number = greatest_to(&self.free, &Reverse(first))?;
            return Some(number.0);
        }
        let row = least_from(
            &self.rows,
            &Row {
                value,
                number: first,
            },
        )?;
        if row.value == value {
            Some(row.number)
        } else {
            None
        }
    }
}
