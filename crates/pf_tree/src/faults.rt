//! Why a call of the file system is refused.
ghost use Rattle.std.specs.Prelude.{◌≡◌};
ghost use Rattle.pf_tree.specs.Faults.{refusal_number, tree_number};

use pf_base::NoMemory;
use std::alloc::{AllocError, AllocFailed};
use thiserror::Error;

/// Why the tables refuse a call.
#[derive(Clone, Copy, Debug, PartialEq, Eq, Error)]
pub enum TreeRefusal {
    /// A name of the path is missing (82).
    #[error("no entry")]
    NoEntry,
    /// Something stands at the path (83).
    #[error("exists")]
    Exists,
    /// A file stands where a directory is needed (84).
    #[error("not dir")]
    NotDir,
    /// A directory stands where a file is needed (85).
    #[error("is dir")]
    IsDir,
    /// The directory has names (86).
    #[error("not empty")]
    NotEmpty,
    /// No inode is free, or too few blocks (87).
    #[error("no space")]
    NoSpace,
    /// The file would be larger than the greatest size (88).
    #[error("too large")]
    TooLarge,
    /// A directory would move below itself (89).
    #[error("into itself")]
    IntoItself,
}

impl TreeRefusal {
    /// The number of this refusal.
    pub fn number(&self) -> u32
        ensures { result ≡ refusal_number self.now }
    {
        match self {
            TreeRefusal::NoEntry => 82,
            TreeRefusal::Exists => 83,
            TreeRefusal::NotDir => 84,
            TreeRefusal::IsDir => 85,
            TreeRefusal::NotEmpty => 86,
            TreeRefusal::NoSpace => 87,
            TreeRefusal::TooLarge => 88,
            TreeRefusal::IntoItself => 89,
        }
    }
}

/// Why a call was not planned.
#[derive(Clone, Copy, Debug, PartialEq, Eq, Error)]
pub enum TreeFault {
    /// Memory has run out (1).
    #[error("no memory")]
    NoMemory,
    /// The tables refuse it.
    #[error(transparent)]
    Refused(TreeRefusal),
}

impl TreeFault {
    /// The number of this fault.
    pub fn number(&self) -> u32
        ensures { result ≡ tree_number self.now }
    {
        match self {
            TreeFault::NoMemory => 1,
            TreeFault::Refused(refusal) => refusal.number(),
        }
    }
}

ghost use Rattle.pf_tree.specs.declared.faults.TreeFault.TheVariants.{NoMemory as wants_memory, Refused as is_refused};

impl From<TreeRefusal> for TreeFault {
    ghost from_gives = { λ refusal fault. fault ≡ is_refused refusal };

    fn from(refusal: TreeRefusal) -> Self {
        TreeFault::Refused(refusal)
    }
}

impl From<AllocError> for TreeFault {
    ghost from_gives = { λ _ fault. fault ≡ wants_memory };

    fn from(_: AllocError) -> Self {
        TreeFault::NoMemory
    }
}

impl<T: Drop> From<AllocFailed<T>> for TreeFault {
    ghost from_gives = { λ _ fault. fault ≡ wants_memory };

    fn from(_: AllocFailed<T>) -> Self {
        TreeFault::NoMemory
    }
}

impl From<NoMemory> for TreeFault {
    ghost from_gives = { λ _ fault. fault ≡ wants_memory };

    fn from(_: NoMemory) -> Self {
        TreeFault::NoMemory
    }
}
