//! Messages for a person, in whole sentences, of what the status of a run leaves unsaid. No clause promises their texts; stored runs show them.
#![tactic(auto)]

mod ends;
mod messages;

pub use ends::{Front, Tail};
pub use messages::{Refused, memory, reading, refusal, usage, writing};
