//! Why lines are refused of which no group was asked.
ghost use Rattle.std.specs.Prelude.{◌≡◌};
ghost use Rattle.pf_report.specs.Refusals.{line_refusal_number};

use thiserror::Error;

/// Why a line of a script is refused of which no group was asked: what it needs of the run, of its volume or of its hosts is not so. What
/// a group refuses itself is a `Refusal`, why no call begins a fault of the hosts.
#[derive(Clone, Copy, Debug, PartialEq, Eq, Error)]
pub enum LineRefusal {
    /// Sixteen mounts were made.
    #[error("mounts full")]
    MountsFull,
    /// The volume has no room for the journal and a block of file data.
    #[error("small volume")]
    SmallVolume,
    /// The line submits or runs threads, and a mount began the run.
    #[error("mounted")]
    Mounted,
    /// The line mounts, or lays the journal on three anchors, and a line that submits or runs threads began the run; or it moves a chunk,
    /// and no mount began the run.
    #[error("raw")]
    Raw,
    /// No mount of this number was made, or it was killed.
    #[error("no mount")]
    NoMount,
    /// The volume has fewer than 4 chunks, or fewer than 4,096 sectors in each.
    #[error("no anchors")]
    NoAnchors,
    /// A mount was made, also one that was killed, or the journal lies on three anchors.
    #[error("too late")]
    TooLate,
    /// There are eight groups.
    #[error("no spare")]
    NoSpare,
    /// A chunk is moving.
    #[error("moving")]
    Moving,
    /// The group that the line names is not made.
    #[error("no group")]
    NoGroup,
}

impl LineRefusal {
    /// The number of this refusal.
    pub fn number(&self) -> u32
        ensures { result ≡ line_refusal_number self.now }
    {
        match self {
            LineRefusal::MountsFull => 92,
            LineRefusal::SmallVolume => 93,
            LineRefusal::Mounted => 94,
            LineRefusal::Raw => 95,
            LineRefusal::NoMount => 96,
            LineRefusal::NoAnchors => 98,
            LineRefusal::TooLate => 99,
            LineRefusal::NoSpare => 100,
            LineRefusal::Moving => 101,
            LineRefusal::NoGroup => 102,
        }
    }
}
