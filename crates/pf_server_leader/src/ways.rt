//! The ways in which a server catches up.

/// What a leader sends to a server so that it catches up.
#[derive(Clone, Copy, Debug, PartialEq, Eq)]
pub enum SubmitPlan {
    /// The sectors, as they stand: the checkpoint has slots that the server has not applied.
    Image,
    /// The entries above the checkpoint, which are all that the server lacks.
    Stream,
}
