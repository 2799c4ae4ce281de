//! The tests of a log and of a pair of halves whose disks fail and crash, of a ring that is empty and full, of threads that meet, and of what servers apply.
//!
//! They stand above the crates that they call, since a crate with tests is proved twice.
#![tactic(auto)]

#[cfg(test)]
mod applying;
#[cfg(test)]
mod chunklog;
#[cfg(test)]
mod images;
#[cfg(test)]
mod live;
#[cfg(test)]
mod rings;
