//! Where a pair stands, so that it can go back there or on.
use crate::Half;

/// The current half, and the head and the used bytes of each half.
#[derive(Clone, Copy)]
pub struct PairPlace {
    pub(crate) current: Half,
    pub(crate) zero_head: [u8; 8],
    pub(crate) zero_used: u64,
    pub(crate) one_head: [u8; 8],
    pub(crate) one_used: u64,
}
