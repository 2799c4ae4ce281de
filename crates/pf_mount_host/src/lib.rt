//! A host of a volume whose journal lies by a layout: a mount, and its ports into the groups that serve the chunks.
#![tactic(auto)]

mod host;
mod ports;

pub use host::Host;
pub use pf_world_moments;
pub use pf_world_moments::pf_chunk;
