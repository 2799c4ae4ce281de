//! What a server needs of its disks: records that outlive a crash.
#![tactic(auto)]

mod faults;
mod found;
mod store;

pub use faults::{DiskFault, ReloadFault};
pub use found::Found;
pub use store::Store;
