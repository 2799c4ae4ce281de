//! The leader that one thread published last, for others to ask.
//!
//! A pass is one thread's right to ask, and knows which pairs of a term and a server it has seen published. The first pass
//! alone publishes. Terms never go back: nobody is told of a term below one that it has seen.
#![tactic(auto)]

mod calls;
mod cell;
mod view;

pub use cell::{LeaderCell, LeaderPass};
