//! Sectors of which the last ones are zeros.
ghost use Rattle.std.specs.Prelude.{◌≡◌, ◌-◌, ◌≤◌, ◌++◌, length, replicate};

use pf_base::{Sector, Sectors};
use std::marker::Model;

/// The sectors of a chunk: those at the front from where they stand, and zeros behind them, which stand nowhere.
#[derive(Drop)]
pub struct ThinSectors<'a> {
    written: &'a [Sector],
    zeros: usize,
}

impl<'a> Model for ThinSectors<'a> {
    ghost use Rattle.std.specs.Prelude.{List, ℕ, ◌++◌, replicate};

    ghost Value = { List (List ℕ) };

    ghost view = { λ s. s.written.now ++ replicate s.zeros (replicate 512 0) };
}

impl<'a> ThinSectors<'a> {
    /// `count` sectors: these, and zeros behind them. Where these are more, they are all.
    pub fn new(written: &'a [Sector], count: usize) -> ThinSectors<'a>
        ensures { result ≡ written.now ++ replicate (count - length written.now) (replicate 512 0) }
    {
        ThinSectors {
            written,
            zeros: count.saturating_sub(written.len()),
        }
    }

    /// All of these sectors.
    pub fn all(sectors: &'a Sectors) -> ThinSectors<'a>
        ensures { result ≡ sectors.now }
    {
        ThinSectors {
            written: sectors.as_slice(),
            zeros: 0,
        }
    }

    /// How many sectors there are.
    pub fn len(&self) -> usize
        requires { length self.now ≤ 4096 }
        ensures { result ≡ length self.now }
    {
        self.written.len() + self.zeros
    }

    /// Those at the front, and how many zeros are behind them.
    pub(crate) fn parts(&self) -> (&[Sector], usize)
        ensures { self.now ≡ result.0.now ++ replicate result.1 (replicate 512 0) }
    {
        (self.written, self.zeros)
    }
}
