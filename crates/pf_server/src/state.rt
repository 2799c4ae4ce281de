//! What a server is in.
use pf_server_memory::Running;

/// What is known of the last step of a stopped server.
#[derive(Clone, Copy, Debug, PartialEq, Eq)]
pub enum Doubt {
    /// Its records tell one state alone.
    Settled,
    /// A disk failed in it. Without the step's record, the half has so many used bytes, and its state this generation.
    Open { used: u64, generation: u64 },
    /// A disk failed in it, a restart then found its record or not, and a disk failed in that restart too.
    Read { found: bool },
}

/// What a server is in. The life counts its beginnings.
#[derive(Drop)]
pub enum State {
    Runs(Running),
    /// It begins again from its records.
    Stopped { life: u64, doubt: Doubt },
    /// Its disks could not be formatted as its group was made, so it never runs.
    Unformatted,
}
