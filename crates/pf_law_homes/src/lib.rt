//! Where the positions of a journal lie, by a layout, and what their blocks are to mounts whose asks groups serve.
#![tactic(auto)]

mod laws;

pub use laws::{halves_in_chunks_are_registers, positions_over_chunks_are_registers};
