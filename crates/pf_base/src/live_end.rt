//! The ends of a line of threads.

/// How a live line ends.
#[derive(Clone, Copy, Debug, PartialEq, Eq)]
pub enum LiveEnd {
    /// Every write is acknowledged, and no packet is left.
    Done,
    /// No packet is left, and each host with a write that is not acknowledged waits in vain.
    Stalled,
    /// All deliveries were made, and a packet is left.
    TurnsSpent,
}
