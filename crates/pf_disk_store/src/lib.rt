//! A store over two disks: the records of a server, each of which is on the disks before it counts.
#![tactic(auto)]

mod kept;
mod spare;

pub use kept::Kept;
