//! The disks of a group.

/// The disks of three servers, two for each: that of its half 0, and that of its half 1.
#[derive(Drop)]
pub struct Six<D> {
    pub s0h0: D,
    pub s0h1: D,
    pub s1h0: D,
    pub s1h1: D,
    pub s2h0: D,
    pub s2h1: D,
}
