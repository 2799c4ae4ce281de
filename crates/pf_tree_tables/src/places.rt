//! Values by number, and numbers by value.
ghost use Rattle.std.specs.Prelude.{◌≡◌, IfOk, MatchOption, length, replicate, set};
ghost use Rattle.std.specs.Ordering.{is_eq};
ghost use Rattle.pf_tree_tables.specs.Places.{IsLeastFrom, IsNoneFrom};

use crate::index::{Index, Row};
use pf_base::NoMemory;
use std::alloc::Global;
use std::marker::Model;

/// A value for each number from 0 on. The numbers stand in the order of their values too, so those of one value are found by binary
/// search. After it is made it takes no memory.
#[derive(Drop)]
pub(crate) struct ValuePlaces<T: Ord + Copy> {
    values: Vec<T>,
    index: Index<T>,
}

impl<T: Ord + Copy> Model for ValuePlaces<T> {
    ghost use Rattle.std.specs.Prelude.{List, length};

    ghost Value = { List T };

    ghost view = { λ p. p.values.items };

    ghost use Rattle.pf_tree_tables.specs.Index.{IndexHasRoom, IsIndexOf};

    ghost invariant = { λ p. IsIndexOf T.cmp p.values.items p.index × IndexHasRoom (length p.values.items) p.index };
}

impl<T: Ord + Copy> ValuePlaces<T> {
    /// So many numbers with this value, which is the one that most are expected to have. The one error is `NoMemory` (1).
    pub(crate) fn new(alloc: Global, count: u32, value: T) -> Result<ValuePlaces<T>, NoMemory>
        ensures { IfOk result (λ places. places ≡ replicate count value) }
    {
        let mut values = Vec::new(alloc);
        values.resize(count as usize, value)?;
        let index = Index::all_free(alloc, count, value)?;
        Ok(ValuePlaces { values, index })
    }

    /// A copy. The one error is `NoMemory` (1).
    pub(crate) fn copied(&self, alloc: Global) -> Result<ValuePlaces<T>, NoMemory>
        ensures { IfOk result (λ places. places ≡ self.now) }
    {
        let values = Vec::from_slice(alloc, &self.values)?;
        let index = self.index.copied(alloc, values.len())?;
        Ok(ValuePlaces { values, index })
    }

    /// How many numbers there are.
    pub(crate) fn len(&self) -> usize
        ensures { result ≡ length self.now }
    {
        self.values.len()
    }

    /// The values.
    pub(crate) fn as_slice(&self) -> &[T]
        ensures { result.now ≡ self.now }
    {
        &self.values
    }

    /// Gives a number another value; a number that is not there is passed over.
    pub(crate) fn set(&mut self, number: u16, value: T)
        ensures { self.new ≡ set self.old number value }
    {
        let place = number as usize;
        if place < self.values.len() {
            let number = number as u32;
            let old = Row {
                value: self.values[place],
                number,
            };
            self.index.take(&old);
            self.index.put(Row { value, number });
            self.values[place] = value;
        }
    }

    /// The least number from `first` on with this value; `None` exactly where there is none.
    pub(crate) fn least(&self, value: T, first: u32) -> Option<u32>
        ensures { MatchOption result (IsNoneFrom (λ x. is_eq (T.cmp x value)) self.now first) (IsLeastFrom (λ x. is_eq (T.cmp x value)) self.now first) }
    {
        self.index.least(value, first)
    }
}
