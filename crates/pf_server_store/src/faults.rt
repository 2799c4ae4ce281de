//! How calls of a store fail.
ghost use Rattle.std.specs.Prelude.{◌≡◌};
ghost use Rattle.pf_server_store.specs.declared.faults.ReloadFault.TheVariants.{NoMemory as WantsMemory, DiskFault as DiskFailed};

use pf_base::NoMemory;
use thiserror::Error;

/// 40: a disk failed at this call. Its count of faults rose.
#[derive(Clone, Copy, Debug, PartialEq, Eq, Error)]
#[error("disk fault")]
pub struct DiskFault;

/// Why the records could not be read.
#[derive(Clone, Copy, Debug, PartialEq, Eq, Error)]
pub enum ReloadFault {
    /// 1: there was no memory for them.
    #[error("no memory")]
    NoMemory,
    /// 40: a disk failed at this call. Its count of faults rose.
    #[error("disk fault")]
    DiskFault,
    /// 42: neither half is one that this store wrote.
    #[error("not ours")]
    NotOurs,
}

impl From<NoMemory> for ReloadFault {
    ghost from_gives = { λ _ fault. fault ≡ WantsMemory };

    fn from(_: NoMemory) -> Self {
        ReloadFault::NoMemory
    }
}

impl From<DiskFault> for ReloadFault {
    ghost from_gives = { λ _ fault. fault ≡ DiskFailed };

    fn from(_: DiskFault) -> Self {
        ReloadFault::DiskFault
    }
}
