//! What a log answers in place of Ok.
ghost use Rattle.std.specs.Prelude.{◌≡◌};
ghost use Rattle.pf_chunklog.specs.declared.errors.AppendFault.TheVariants.{DiskFault};
ghost use Rattle.pf_chunklog.specs.declared.errors.OpenFault.TheVariants.{NoMemory};
ghost use Rattle.pf_chunklog.specs.declared.errors.OpenFault.TheVariants as open_fault;
ghost use Rattle.pf_chunklog.specs.Faults.{append_fault_number, open_number_of};

use pf_disk::Failed;
use std::alloc::{AllocError, AllocFailed};
use thiserror::Error;

/// The disk has failed at a call.
#[derive(Clone, Copy, Debug, PartialEq, Eq, Error)]
#[error("the disk failed")]
pub struct DiskFault;

impl DiskFault {
    /// Its number in reports.
    pub fn number(self) -> u8
        ensures { result ≡ 40 }
    {
        40
    }
}

/// Why a record was not appended.
#[derive(Clone, Copy, Debug, PartialEq, Eq, Error)]
pub enum AppendFault {
    /// The disk has failed at a call. The record may be there or not: the log is to be opened again.
    #[error("the disk failed")]
    DiskFault,
    /// The record does not fit the half.
    #[error("the log is full")]
    LogFull,
}

impl AppendFault {
    /// Its number in reports.
    pub fn number(self) -> u8
        ensures { result ≡ append_fault_number self }
    {
        match self {
            AppendFault::DiskFault => 40,
            AppendFault::LogFull => 41,
        }
    }
}

impl From<Failed> for AppendFault {
    ghost from_gives = { λ _ fault. fault ≡ DiskFault };

    fn from(_: Failed) -> Self {
        AppendFault::DiskFault
    }
}

/// Why a log was not opened.
#[derive(Clone, Copy, Debug, PartialEq, Eq, Error)]
pub enum OpenFault {
    /// Memory ran out.
    #[error("out of memory")]
    NoMemory,
    /// The disk has failed at a call.
    #[error("the disk failed")]
    DiskFault,
    /// The first bytes are not the head, or no closed gate ends the records.
    #[error("no log of ours")]
    NotOurs,
}

impl OpenFault {
    /// Its number in reports.
    pub fn number(self) -> u8
        ensures { result ≡ open_number_of self }
    {
        match self {
            OpenFault::NoMemory => 1,
            OpenFault::DiskFault => 40,
            OpenFault::NotOurs => 42,
        }
    }
}

impl From<Failed> for OpenFault {
    ghost from_gives = { λ _ fault. fault ≡ open_fault.DiskFault };

    fn from(_: Failed) -> Self {
        OpenFault::DiskFault
    }
}

impl From<AllocError> for OpenFault {
    ghost from_gives = { λ _ fault. fault ≡ NoMemory };

    fn from(_: AllocError) -> Self {
        OpenFault::NoMemory
    }
}

impl<T: Drop> From<AllocFailed<T>> for OpenFault {
    ghost from_gives = { λ _ fault. fault ≡ NoMemory };

    fn from(_: AllocFailed<T>) -> Self {
        OpenFault::NoMemory
    }
}

impl From<pf_base::NoMemory> for OpenFault {
    ghost from_gives = { λ _ fault. fault ≡ NoMemory };

    fn from(_: pf_base::NoMemory) -> Self {
        OpenFault::NoMemory
    }
}
