//! Why a step is not done.
ghost use Rattle.std.specs.Prelude.{◌≡◌};
ghost use Rattle.pf_server_memory.specs.declared.faults.StepFault.TheVariants.{NoMemory as WantsMemory, Halted, Refused};

use pf_base::NoMemory;
use pf_protocol::Refusal;
use pf_server_store::DiskFault;
use thiserror::Error;

/// Why a step of a server is not done.
#[derive(Clone, Copy, Debug, PartialEq, Eq, Error)]
pub enum StepFault {
    /// 1: there was no memory for it. The server is as it was.
    #[error("no memory")]
    NoMemory,
    /// The refusal's own number. The server is as it was.
    #[error("{0}")]
    Refused(Refusal),
    /// 52: a disk failed while the step's record was written. The next restart finds the record or not.
    #[error("halted")]
    Halted,
}

impl From<NoMemory> for StepFault {
    ghost from_gives = { λ _ fault. fault ≡ WantsMemory };

    fn from(_: NoMemory) -> Self {
        StepFault::NoMemory
    }
}

impl From<DiskFault> for StepFault {
    ghost from_gives = { λ _ fault. fault ≡ Halted };

    fn from(_: DiskFault) -> Self {
        StepFault::Halted
    }
}

impl From<Refusal> for StepFault {
    ghost from_gives = { λ refusal fault. fault ≡ Refused refusal };

    fn from(refusal: Refusal) -> Self {
        StepFault::Refused(refusal)
    }
}
