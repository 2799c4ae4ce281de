//! What is seen in a picture of a run, and the words for it.
#![tactic(auto)]

mod labels;
mod marks;
mod titles;

pub use marks::{Content, MountMark, PacketKind, Passage, ServerMark};
