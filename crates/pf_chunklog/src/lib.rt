//! The records of one half of a chunk log: each is on the disk before it is acknowledged.
#![tactic(auto)]

mod errors;
mod log;
mod reading;
mod records;

pub use errors::{AppendFault, DiskFault, OpenFault};
pub use log::ChunkLog;
pub use records::{Opened, RawRecords};
