//! Bytes that several hold.
ghost use Rattle.std.specs.Prelude.{◌≡◌, ◌-◌, ◌≤◌, IfOk, length, slice_range};

use crate::{Bytes, NoMemory};
use std::alloc::Global;
use std::marker::Model;
use std::sync::Arc;

/// Bytes that all their holders share, as those of a file that was read.
#[derive(Drop)]
pub struct Shared {
    bytes: Arc<Bytes, Global>,
}

impl Model for Shared {
    ghost use Rattle.std.specs.Prelude.{List, ℕ};
    ghost use Rattle.std.specs.Arc.{arc_value};

    ghost Value = { List ℕ };

    ghost view = { λ s. arc_value s.bytes };
}

impl Shared {
    /// Bytes that are to be shared. They are not copied; the one error is `NoMemory` (1).
    pub fn new(alloc: Global, bytes: Vec<u8>) -> Result<Shared, NoMemory>
        ensures { IfOk result (λ s. s ≡ bytes.items) }
    {
        let bytes = Arc::new(alloc, Bytes::new(bytes))?;
        Ok(Shared { bytes })
    }

    /// One more holder of the same bytes. No byte is copied.
    pub fn try_clone(&self) -> Result<Shared, NoMemory>
        ensures { IfOk result (λ s. s ≡ self.now) }
    {
        let bytes = Arc::try_clone(&self.bytes)?;
        Ok(Shared { bytes })
    }

    /// The bytes.
    pub fn as_slice(&self) -> &[u8]
        ensures { result.now ≡ self.now }
    {
        self.bytes.as_slice()
    }
}

/// Bytes in a row among those that are shared.
#[derive(Drop)]
pub struct Piece<'a> {
    whole: &'a Shared,
    from: usize,
    to: usize,
}

impl<'a> Model for Piece<'a> {
    ghost use Rattle.std.specs.Prelude.{List, ℕ, ◌≤◌, length, slice_range};

    ghost Value = { List ℕ };

    ghost view = { λ p. slice_range p.whole.now p.from p.to };

    ghost invariant = { λ p. (p.from ≤ p.to) × (p.to ≤ length p.whole.now) };
}

impl<'a> Piece<'a> {
    /// Those from byte `from` up to byte `to`, without that.
    pub fn new(whole: &'a Shared, from: usize, to: usize) -> Piece<'a>
        requires order { from ≤ to }
        requires inside { to ≤ length whole.now }
        ensures { result ≡ slice_range whole.now from to }
    {
        Piece { whole, from, to }
    }

    /// The bytes that it is a part of, and where it ends among them.
    pub fn place(&self) -> (&'a Shared, usize)
        ensures inside { result.1 ≤ length result.0.now }
        ensures end { length self.now ≤ result.1 }
        ensures same { self.now ≡ slice_range result.0.now (result.1 - length self.now) result.1 }
    {
        (self.whole, self.to)
    }

    /// The bytes.
    pub fn as_slice(&self) -> &'a [u8]
        ensures { result.now ≡ self.now }
    {
        &self.whole.as_slice()[self.from..self.to]
    }
}
