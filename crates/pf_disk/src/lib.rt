//! Disks: what a read gives, what a crash may leave, and how often a call failed.
#![tactic(auto)]

mod disk;
mod files;
mod memory;
mod ram;
mod tape;

pub use disk::{Disk, Failed};
pub use memory::MemDisk;
pub use ram::RamDisk;
