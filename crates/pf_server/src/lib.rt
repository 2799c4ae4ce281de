//! One server of a group: its memory and its records on two disks, and what each event makes of it.
//!
//! The rules are the definitions of pf_protocol. Each call carries out one rule, answers the reads that it made ready, and stops the
//! server where a disk failed. Each step, also one that is refused, drops the answers of earlier steps that nobody took.
#![tactic(auto)]

mod ends;
mod jobs;
mod lives;
mod readers;
mod receiving;
mod server;
mod state;
mod steps;

pub use server::Server;
pub use state::{Doubt, State};
