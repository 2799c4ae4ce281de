//! Why nothing was read.
ghost use Rattle.std.specs.Prelude.{◌≡◌};
ghost use Rattle.pf_codec.specs.declared.faults.ReadFault.TheVariants.{NoMemory};

use pf_base::NoMemory;
use std::alloc::{AllocError, AllocFailed};
use thiserror::Error;

/// Why a value was not read. `NoMemory` has the number 1; what `Malformed` is told as depends on whose bytes these are.
#[derive(Clone, Copy, Debug, PartialEq, Eq, Error)]
pub enum ReadFault {
    /// Memory has run out.
    #[error("no memory")]
    NoMemory,
    /// What stands at the front of the bytes is no spelling of such a value.
    #[error("no spelling")]
    Malformed,
}

impl From<AllocError> for ReadFault {
    ghost from_gives = { λ _ fault. fault ≡ NoMemory };

    fn from(_: AllocError) -> Self {
        ReadFault::NoMemory
    }
}

impl<T: Drop> From<AllocFailed<T>> for ReadFault {
    ghost from_gives = { λ _ fault. fault ≡ NoMemory };

    fn from(_: AllocFailed<T>) -> Self {
        ReadFault::NoMemory
    }
}

impl From<NoMemory> for ReadFault {
    ghost from_gives = { λ _ fault. fault ≡ NoMemory };

    fn from(_: NoMemory) -> Self {
        ReadFault::NoMemory
    }
}
