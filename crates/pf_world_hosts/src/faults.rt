//! Why a host does not come, and why no call of one begins.
ghost use Rattle.std.specs.Prelude.{◌≡◌};
ghost use Rattle.pf_report.specs.Refusals.{line_refusal_number};
ghost use Rattle.pf_report.specs.declared.refusals.LineRefusal.TheVariants as refusals;
ghost use Rattle.pf_world_hosts.specs.Calls.{call_fault, call_number, join_number};
ghost use Rattle.pf_world_hosts.specs.declared.faults.JoinFault.TheVariants.{NoMemory as joins_no_more};

use pf_base::NoMemory;
use pf_mount::StartFault;
use pf_report::LineRefusal;
use std::alloc::AllocError;
use thiserror::Error;

/// Why no host comes.
#[derive(Clone, Copy, Debug, PartialEq, Eq, Error)]
pub enum JoinFault {
    /// Memory has run out.
    #[error("no memory")]
    NoMemory,
    /// There were sixteen mounts.
    #[error("mounts full")]
    MountsFull,
    /// The volume has no room for the journal and a block of file data.
    #[error("small volume")]
    SmallVolume,
}

impl JoinFault {
    /// The number of this refusal.
    pub fn number(&self) -> u32
        ensures { result ≡ join_number self.now }
    {
        match self {
            JoinFault::NoMemory => 1,
            JoinFault::MountsFull => LineRefusal::MountsFull.number(),
            JoinFault::SmallVolume => LineRefusal::SmallVolume.number(),
        }
    }
}

impl From<AllocError> for JoinFault {
    ghost from_gives = { λ _ fault. fault ≡ joins_no_more };

    fn from(_: AllocError) -> Self {
        JoinFault::NoMemory
    }
}

impl From<NoMemory> for JoinFault {
    ghost from_gives = { λ _ fault. fault ≡ joins_no_more };

    fn from(_: NoMemory) -> Self {
        JoinFault::NoMemory
    }
}

/// No host has this number: its mount was never made, or was killed.
#[derive(Clone, Copy, Debug, PartialEq, Eq, Error)]
#[error("no mount")]
pub struct NoMount;

impl NoMount {
    /// The number of this refusal.
    pub fn number(&self) -> u32
        ensures { result ≡ line_refusal_number refusals.NoMount }
    {
        LineRefusal::NoMount.number()
    }
}

/// Why no call begins.
#[derive(Clone, Copy, Debug, PartialEq, Eq, Error)]
pub enum HostCallFault {
    /// Memory has run out.
    #[error("no memory")]
    NoMemory,
    /// A word of the call is no path, or `/` where a directory is removed or a path renamed.
    #[error("bad name")]
    BadName,
    /// The mount is not ready, or a call of it has not ended.
    #[error("call pending")]
    CallPending,
    /// No host has this number.
    #[error("no mount")]
    NoMount,
}

impl HostCallFault {
    /// The number of this refusal.
    pub fn number(&self) -> u32
        ensures { result ≡ call_number self.now }
    {
        match self {
            HostCallFault::NoMemory => 1,
            HostCallFault::BadName => StartFault::BadName.number(),
            HostCallFault::CallPending => StartFault::CallPending.number(),
            HostCallFault::NoMount => LineRefusal::NoMount.number(),
        }
    }
}

impl From<StartFault> for HostCallFault {
    ghost from_gives = { λ fault call. call ≡ call_fault fault };

    fn from(fault: StartFault) -> Self {
        match fault {
            StartFault::NoMemory => HostCallFault::NoMemory,
            StartFault::BadName => HostCallFault::BadName,
            StartFault::CallPending => HostCallFault::CallPending,
        }
    }
}
