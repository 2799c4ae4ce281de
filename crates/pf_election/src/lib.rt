//! What a server keeps as a candidate, and as a leader that is asked to read.
#![tactic(auto)]

mod candidacy;
mod probes;

pub use candidacy::Candidacy;
pub use probes::{ProbedRead, Probes};
