//! The history of a position whose halves are known apart.
#![tactic(auto)]

mod laws;

pub use laws::halves_are_registers;
