//! Each group of the run of an accepted script in the model is lawful, whether or not a program ever ran it, where the run is of mounts or no
//! line is live: laws.
#![tactic(auto)]

mod laws;

pub use laws::{accepted_runs_are_lawful, accepted_runs_have_one_list};
