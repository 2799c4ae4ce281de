//! The packets between the servers of a group as bytes, both ways.
#![tactic(auto)]

mod faults;
mod laws;
mod reading;
mod sizes;
mod writing;

pub use faults::WireFault;
pub use laws::{packets_have_their_sizes, packets_tell_themselves};
pub use reading::decode;
pub use sizes::length_of;
pub use writing::{encode, encode_accept, encode_image, readdressed};
