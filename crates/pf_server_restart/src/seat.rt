//! What a server is made with.
use pf_base::ServerId;

/// What a server is made with, and what each of its lives has.
#[derive(Clone, Copy, Debug, PartialEq, Eq)]
pub struct Seat {
    /// Its number in its group.
    pub number: ServerId,
    /// The sectors of the chunk, 16 to 4,096 and a multiple of 8.
    pub sectors: u32,
    /// The most slots that an entry names, at most 16.
    pub names: u8,
    /// The format in which the volume's disks were formatted, 1 or 2.
    pub format: u8,
}
