//! What a restart reads.
use pf_entry::Record;

/// The records of the current half.
#[derive(Drop)]
pub struct Found {
    /// The format of the half, 1 or 2.
    pub format: u8,
    /// The bytes of the half that are used, with the closed gate that ends its records.
    pub used: u64,
    /// The records in order, an image first.
    pub records: Vec<Record>,
}
