//! How a host's asks are brought to a chunk: one write or read at a time, handed to the serving leader, again where a leader of a
//! greater term serves, and never to one of a lower term (PolarFS, how a host finds the leader of a chunk).
#![tactic(auto)]

mod desk;
mod port;

pub use desk::Desk;
pub use port::Port;
