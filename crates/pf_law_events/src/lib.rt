//! Mounts over a layout as what their ports ask and hear: each position's turns at an anchor are what was asked and answered at the chunks
//! of its halves. No mount fails.
#![tactic(auto)]

mod laws;

pub use laws::{anchors_over_chunks_are_registers, events_at_ports_are_turns, mounts_never_fail};
