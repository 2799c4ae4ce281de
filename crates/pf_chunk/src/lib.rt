//! One chunk of a volume: its group, and what a report tells of it.
//!
//! After each event of the group what can be applied is applied; then each read of a line that was answered is told by a line of its
//! own. Hosts have ports into it, one for each mount, and so has the mover of a chunk: what they hand on are events like any other, and what they
//! read is told to them alone. The group may be handed out for a while, and what happened to it then is followed up once it is back.
#![tactic(auto)]

mod asked;
mod asking;
mod chunk;
mod desk;
mod driving;
mod happening;
mod laws;
mod lending;
mod settling;
mod showing;
mod telling;
mod writable;

pub use asked::LineAsk;
pub use chunk::{ChunkGroup, MOVER};
pub use laws::reads_are_answered_while_they_wait;
pub use lending::Lent;
pub use pf_chunk_waiting::Waiting;
pub use pf_group_rounds::pf_group;
pub use settling::{Try, TryEnd};
pub use writable::WritableRange;
