//! Applying what is committed: jobs are claimed, finished and given back; reads are taken up and answered; checkpoints.
//!
//! The rules are the definitions of pf_protocol. Jobs and answers touch memory alone: what the end of a job needs of memory is
//! taken as it begins, and what a read's answer needs, as the read is confirmed. A checkpoint is saved in a store, and ends in
//! one of four ways: it is done, refused, out of memory, or cut off by a disk.
#![tactic(auto)]

mod checkpoints;
mod claims;
mod fetches;
mod jobs;
mod probes;
mod reads;

pub use checkpoints::checkpoint;
pub use claims::claim;
pub use fetches::fetch;
pub use jobs::{finish, give_back};
pub use probes::probe_ok;
pub use reads::settle;
