//! Why a server does not begin again.
ghost use Rattle.std.specs.Prelude.{◌≡◌};
ghost use Rattle.pf_server_restart.specs.Faults.{restart_fault_of};
ghost use Rattle.pf_server_restart.specs.declared.faults.RestartFault.TheVariants.{NoMemory as WantsMemory};

use crate::HalfReading;
use pf_base::NoMemory;
use pf_server_store::ReloadFault;
use thiserror::Error;

/// Why a server does not begin again.
#[derive(Clone, Copy, Debug, PartialEq, Eq, Error)]
pub enum RestartFault {
    /// 1: there was no memory for it.
    #[error("no memory")]
    NoMemory,
    /// 52: a disk failed while the records were read.
    #[error("halted")]
    ReadHalted,
    /// 52: a disk failed while the records were saved in a new half. It has what was read before.
    #[error("halted")]
    SaveHalted(HalfReading),
    /// 42: no half is recoverable, or what its records give does not fit the server.
    #[error("not ours")]
    NotOurs,
}

impl From<NoMemory> for RestartFault {
    ghost from_gives = { λ _ fault. fault ≡ WantsMemory };

    fn from(_: NoMemory) -> Self {
        RestartFault::NoMemory
    }
}

impl From<ReloadFault> for RestartFault {
    ghost from_gives = { λ fault given. given ≡ restart_fault_of fault };

    fn from(fault: ReloadFault) -> Self {
        match fault {
            ReloadFault::NoMemory => RestartFault::NoMemory,
            ReloadFault::DiskFault => RestartFault::ReadHalted,
            ReloadFault::NotOurs => RestartFault::NotOurs,
        }
    }
}
