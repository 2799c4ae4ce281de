//! Why a word is not read as a path.
ghost use Rattle.std.specs.Prelude.{◌≡◌};
ghost use Rattle.pf_layout.specs.Faults.{path_number};
ghost use Rattle.pf_layout.specs.declared.faults.PathFault.TheVariants.{NoMemory as wants_memory};

use std::alloc::{AllocError, AllocFailed};
use thiserror::Error;

/// Why a word is not read as a path.
#[derive(Clone, Copy, Debug, PartialEq, Eq, Error)]
pub enum PathFault {
    /// Memory has run out.
    #[error("no memory")]
    NoMemory,
    /// The word is no path.
    #[error("bad name")]
    BadName,
}

impl PathFault {
    /// The number of this refusal.
    pub fn number(&self) -> u32
        ensures { result ≡ path_number self.now }
    {
        match self {
            PathFault::NoMemory => 1,
            PathFault::BadName => 80,
        }
    }
}

impl From<AllocError> for PathFault {
    ghost from_gives = { λ _ fault. fault ≡ wants_memory };

    fn from(_: AllocError) -> Self {
        PathFault::NoMemory
    }
}

impl<T: Drop> From<AllocFailed<T>> for PathFault {
    ghost from_gives = { λ _ fault. fault ≡ wants_memory };

    fn from(_: AllocFailed<T>) -> Self {
        PathFault::NoMemory
    }
}
