//! Laws of runs with mounts: what these and their ports did in the run of a script.
#![tactic(auto)]

mod laws;

pub use laws::runs_have_one_list;
pub use pf_law_runs;
