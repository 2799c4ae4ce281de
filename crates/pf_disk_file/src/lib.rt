//! Disks over real files, and those of a folder: a file for each half of each server.
#![tactic(auto)]

mod file;
mod folder;
mod system;

pub use file::FileDisk;
pub use folder::{disks_in, file_in};
pub use system::{Backing, Opener};
