//! The refusal of a server that does not run.
ghost use Rattle.std.specs.Prelude.{◌≡◌};

use thiserror::Error;

/// The server does not run: it is stopped, or its disks could not be formatted.
#[derive(Clone, Copy, Debug, PartialEq, Eq, Error)]
#[error("down")]
pub struct Down;

impl Down {
    /// The number of this refusal.
    pub fn number(&self) -> u32
        ensures { result ≡ 51 }
    {
        51
    }
}
