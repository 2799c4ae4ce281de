//! Refusals of a ring.
ghost use Rattle.std.specs.Prelude.{◌≡◌};

use thiserror::Error;

/// Eight requests stand in the ring.
#[derive(Clone, Copy, Debug, PartialEq, Eq, Error)]
#[error("ring full")]
pub struct Full;

impl Full {
    /// The number of this refusal.
    pub fn number(&self) -> u32
        ensures { result ≡ 62 }
    {
        62
    }
}

/// No request stands in the ring.
#[derive(Clone, Copy, Debug, PartialEq, Eq, Error)]
#[error("ring empty")]
pub struct Empty;

impl Empty {
    /// The number of this refusal.
    pub fn number(&self) -> u32
        ensures { result ≡ 63 }
    {
        63
    }
}
