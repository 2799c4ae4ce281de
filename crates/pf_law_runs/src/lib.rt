//! Laws of runs: where chunks were moved, what movers and their ports did, and what the ports of mounts did to groups, in the run of a script.
#![tactic(auto)]

mod laws;

pub use laws::{
    each_group_has_its_ports, movers_of_runs_are_driven, moves_are_told, routes_are_told,
    what_is_handed_on_is_told,
};
pub use pf_world;
