//! What a call is answered.
ghost use Rattle.std.specs.Prelude.{◌≡◌, ◌≢◌, MatchResult};
ghost use Rattle.pf_tree.specs.Faults.{tree_number};
ghost use Rattle.pf_tree.specs.declared.faults.TreeFault.TheVariants.{NoMemory as WantsMemory};
ghost use Rattle.pf_file_calls.specs.Faults.{fault_number, call_fault_of};

use pf_base::{Bytes, Names, NoMemory};
use pf_tree::{TreeFault, TreeRefusal};
use thiserror::Error;

/// The answer to a call.
#[derive(Debug, Drop)]
pub enum CallAnswer {
    /// It is done.
    Fine,
    /// The bytes that were read.
    Bytes(Bytes),
    /// A directory stands at the path.
    Directory,
    /// A file of this size stands at the path.
    File { size: u32 },
    /// The names in the directory.
    Names(Names),
    /// It is refused, and nothing is changed.
    Refused(CallFault),
}

/// Why a call is refused.
#[derive(Clone, Copy, Debug, PartialEq, Eq, Error)]
pub enum CallFault {
    /// Sector 0 is neither zeros nor the superblock of the volume (81).
    #[error("bad super")]
    BadSuper,
    /// The tables refuse it (82 to 89).
    #[error(transparent)]
    Tree(TreeRefusal),
    /// All 256 positions of the journal are decided (90).
    #[error("journal full")]
    JournalFull,
}

impl CallFault {
    /// The number of this refusal.
    pub fn number(&self) -> u32
        ensures { result ≡ fault_number self.now }
    {
        match self {
            CallFault::BadSuper => 81,
            CallFault::Tree(refusal) => refusal.number(),
            CallFault::JournalFull => 90,
        }
    }
}

/// The refusal of a call that the tree refuses, unless memory has run out.
pub(crate) fn refused(fault: TreeFault) -> Result<CallFault, NoMemory>
    ensures { MatchResult result (λ refusal. (fault ≢ WantsMemory) × (refusal ≡ call_fault_of (tree_number fault))) (λ _. fault ≡ WantsMemory) }
{
    match fault {
        TreeFault::NoMemory => Err(NoMemory),
        TreeFault::Refused(refusal) => Ok(CallFault::Tree(refusal)),
    }
}
