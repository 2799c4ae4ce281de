//! Moving a chunk to another group: which group serves each chunk in which epoch, and the copying of its sectors, eight at a time.
#![tactic(auto)]

mod laws;
mod mover;
mod routes;

pub use laws::pieces_are_written_once;
pub use mover::{MoveNext, Mover, MoverAsk};
pub use routes::{Moving, Route, Routes};
