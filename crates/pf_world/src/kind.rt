//! Kinds of runs.
ghost use Rattle.std.specs.Prelude.{◌≡◌};
ghost use Rattle.pf_world.specs.Lines.{kind_decided, is_mounted, is_of_mounts, is_raw, kind_after};

use pf_script::Command;

/// What writes to the volume in a run. Its first line that submits, runs threads or mounts decides it.
#[derive(Clone, Copy, Debug, PartialEq, Eq)]
pub enum Kind {
    /// Hosts, through the file system: no line submits.
    Mounted,
    /// Lines of the script: no mount is made.
    Raw,
}

impl Kind {
    /// Whether it is the kind of a run with mounts.
    pub(crate) fn is_mounted(self) -> bool
        ensures { result ≡ is_mounted self }
    {
        match self {
            Kind::Mounted => true,
            Kind::Raw => false,
        }
    }

    /// The kind of a run is that of the first line that has one.
    pub(crate) fn decided(self, was: Option<Kind>) -> Kind
        ensures { result ≡ kind_decided was self }
    {
        was.unwrap_or(self)
    }
}

/// The kind of a run after a line, also after one that is refused.
pub(crate) fn kind_after(kind: Option<Kind>, command: &Command) -> Option<Kind>
    ensures { result ≡ kind_after kind command.now }
{
    match command {
        Command::Submit { .. } => Some(Kind::Raw.decided(kind)),
        Command::Live { .. } => Some(Kind::Raw.decided(kind)),
        Command::Mount => Some(Kind::Mounted.decided(kind)),
        _ => kind,
    }
}

/// Whether lines that submit or run threads began the run.
pub(crate) fn is_raw(kind: Option<Kind>) -> bool
    ensures { result ≡ is_raw kind }
{
    match kind {
        Some(kind) => !kind.is_mounted(),
        None => false,
    }
}

/// Whether a mount began the run.
pub(crate) fn is_of_mounts(kind: Option<Kind>) -> bool
    ensures { result ≡ is_of_mounts kind }
{
    match kind {
        Some(kind) => kind.is_mounted(),
        None => false,
    }
}
