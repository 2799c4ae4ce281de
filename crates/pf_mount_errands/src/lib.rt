//! What a mount has read, asked and pending on the anchors of its layout, of which each ballot and each sync needs a quorum.
#![tactic(auto)]

mod asks;
mod blocks;
mod errands;
mod laws;
mod looks;
mod position;

pub use asks::{reads_first, reads_half, reads_super, writes_own, writes_super};
pub use blocks::{blocks_in, has_bal};
pub use errands::{Errand, Errands};
pub use laws::journals_are_asked_inside;
pub use looks::{AnchorLook, Looks};
pub use position::Position;
