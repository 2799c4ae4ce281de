//! Refusals of a log.
ghost use Rattle.std.specs.Prelude.{◌≡◌};

use thiserror::Error;

/// The slot lies more than 4,096 above the base of the log.
#[derive(Clone, Copy, Debug, PartialEq, Eq, Error)]
#[error("window full")]
pub struct WindowFull;

impl WindowFull {
    /// The number of this refusal.
    pub fn number(&self) -> u32
        ensures { result ≡ 30 }
    {
        30
    }
}
