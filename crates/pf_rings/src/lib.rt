//! A ring of requests between one host and the thread of the server that carries them out.
//!
//! The host's pass puts, and knows the list of what it put. The server thread's pass takes, and knows the list of what it took:
//! always a beginning of the host's list, so each request comes out whole, once and in order. At most eight stand between.
//! The calls of both have one order, in which each was answered as one after another; a pass knows the calls so far as it has seen them.
#![tactic(auto)]

mod calls;
mod count;
mod errors;
mod ring;
mod view;

pub use errors::{Empty, Full};
pub use ring::{Ring, RingPass};
pub use view::Request;
