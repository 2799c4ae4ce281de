//! What a restart read.

/// What was read of the current half, before it was saved anew.
#[derive(Clone, Copy, Debug, PartialEq, Eq)]
pub struct HalfReading {
    /// Its used bytes, at most 67,108,864.
    pub used: u64,
    /// Its generation, below 2^63.
    pub generation: u64,
}
