//! Why a sector has no place.
ghost use Rattle.std.specs.Prelude.{◌≡◌};
ghost use Rattle.pf_volume.specs.Numbers.{split_number};

use pf_base::NoMemory;
use std::alloc::{AllocError, AllocFailed};
use thiserror::Error;

/// The sector lies past the last one of the volume.
#[derive(Clone, Copy, Debug, PartialEq, Eq, Error)]
#[error("outside volume")]
pub struct OutsideVolume;

impl OutsideVolume {
    /// The number of this refusal.
    pub fn number(&self) -> u32
        ensures { result ≡ 70 }
    {
        70
    }
}

/// Why a run of sectors was not split.
#[derive(Clone, Copy, Debug, PartialEq, Eq, Error)]
pub enum SplitFault {
    /// Memory has run out.
    #[error("no memory")]
    NoMemory,
    /// Some sector of the run lies past the last one of the volume.
    #[error("outside volume")]
    OutsideVolume,
}

impl SplitFault {
    /// The number of this refusal.
    pub fn number(&self) -> u32
        ensures { result ≡ split_number self.now }
    {
        match self {
            SplitFault::NoMemory => NoMemory.number(),
            SplitFault::OutsideVolume => OutsideVolume.number(),
        }
    }
}

ghost use Rattle.pf_volume.specs.declared.faults.SplitFault.TheVariants.{NoMemory as wants_memory, OutsideVolume as is_outside};

impl From<AllocError> for SplitFault {
    ghost from_gives = { λ _ fault. fault ≡ wants_memory };

    fn from(_: AllocError) -> Self {
        SplitFault::NoMemory
    }
}

impl<T: Drop> From<AllocFailed<T>> for SplitFault {
    ghost from_gives = { λ _ fault. fault ≡ wants_memory };

    fn from(_: AllocFailed<T>) -> Self {
        SplitFault::NoMemory
    }
}

impl From<OutsideVolume> for SplitFault {
    ghost from_gives = { λ _ fault. fault ≡ is_outside };

    fn from(_: OutsideVolume) -> Self {
        SplitFault::OutsideVolume
    }
}
