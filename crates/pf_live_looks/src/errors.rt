//! Why a look tells nothing of a server.
ghost use Rattle.std.specs.Prelude.{◌≡◌};
ghost use Rattle.pf_live_looks.specs.Faults.{look_fault_number};
ghost use Rattle.pf_live_looks.specs.declared.errors.LookFault.TheVariants.{Down as IsDown, NoMemory as WantsMemory};

use pf_base::NoMemory;
use pf_shared::pf_group::Down;
use thiserror::Error;

/// Why a look tells nothing of a server.
#[derive(Clone, Copy, Debug, PartialEq, Eq, Error)]
pub enum LookFault {
    /// 51: the server does not run. It is stopped, or its disks could not be formatted.
    #[error("down")]
    Down,
    /// 1: there was no memory for what the look tells, or for its entry.
    #[error("no memory")]
    NoMemory,
}

impl LookFault {
    /// The number of this refusal.
    pub fn number(&self) -> u32
        ensures { result ≡ look_fault_number self.now }
    {
        match self {
            LookFault::Down => 51,
            LookFault::NoMemory => 1,
        }
    }
}

impl From<Down> for LookFault {
    ghost from_gives = { λ _ fault. fault ≡ IsDown };

    fn from(_: Down) -> Self {
        LookFault::Down
    }
}

impl From<NoMemory> for LookFault {
    ghost from_gives = { λ _ fault. fault ≡ WantsMemory };

    fn from(_: NoMemory) -> Self {
        LookFault::NoMemory
    }
}
