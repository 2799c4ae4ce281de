//! The ports of hosts into the groups that serve the chunks of a volume, the calls that lines give, and what a run tells of both.
#![tactic(auto)]

mod laws;
mod ports;

pub use laws::calls_are_read_by_their_words;
pub use pf_chunk;
pub use ports::{drive_at, put_end};
