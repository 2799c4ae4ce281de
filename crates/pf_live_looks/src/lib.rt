//! What a shared group shows. Nothing in the program names this crate: these are looks that others may take.
//!
//! A look adds one entry of the seat to the list, and tells what is so of the group where that entry stands, if its disks tell their
//! content. Where there is no memory for the entry or for what the look tells (`NoMemory`, 1), nothing is told and there is no entry.
//! That a server does not run (`Down`, 51) is told as well, and has its entry.
#![tactic(auto)]

mod copies;
mod errors;
mod looks;

pub use errors::LookFault;
pub use looks::{
    acked, applied_of, base_of, entry_of, is_committed_of, is_left, packets, sectors_of, snapshot,
    take_read, term_of,
};
pub use pf_shared;
