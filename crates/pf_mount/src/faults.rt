//! Why a call is not started.
ghost use Rattle.std.specs.Prelude.{◌≡◌};
ghost use Rattle.pf_mount.specs.Starts.{start_number, unread};
ghost use Rattle.pf_mount.specs.declared.faults.StartFault.TheVariants.{NoMemory as starts_no_more};

use pf_base::NoMemory;
use pf_layout::PathFault;
use thiserror::Error;

/// Why a call is not started.
#[derive(Clone, Copy, Debug, PartialEq, Eq, Error)]
pub enum StartFault {
    /// Memory has run out.
    #[error("no memory")]
    NoMemory,
    /// A word of the call is no path, or `/` where a directory is removed or a path renamed.
    #[error("bad name")]
    BadName,
    /// The mount is not ready, or a call of it has not ended.
    #[error("call pending")]
    CallPending,
}

impl StartFault {
    /// The number of this refusal.
    pub fn number(&self) -> u32
        ensures { result ≡ start_number self.now }
    {
        match self {
            StartFault::NoMemory => 1,
            StartFault::BadName => 80,
            StartFault::CallPending => 91,
        }
    }
}

impl From<PathFault> for StartFault {
    ghost from_gives = { λ fault start. start ≡ unread fault };

    fn from(fault: PathFault) -> Self {
        match fault {
            PathFault::NoMemory => StartFault::NoMemory,
            PathFault::BadName => StartFault::BadName,
        }
    }
}

impl From<NoMemory> for StartFault {
    ghost from_gives = { λ _ start. start ≡ starts_no_more };

    fn from(_: NoMemory) -> Self {
        StartFault::NoMemory
    }
}
