//! The file data of calls: what a call makes of the tables, the blocks that it fetches and stores one after another, and its answer.
#![tactic(auto)]

mod answers;
mod blocks;
mod bytes;
mod calls;
mod files;
mod filling;
mod laws;
mod moving;
mod spare;
mod spelled;
mod work;

pub use answers::{CallAnswer, CallFault};
pub use blocks::{reads, writes};
pub use calls::{Pending, Planned, is_of, plan, size_in};
pub use files::FileWork;
pub use filling::Fill;
pub use laws::{blocks_are_asked_inside, data_are_asked_inside, planned_calls_follow_the_tree};
pub use moving::{DataMoving, Moved, moves, moves_on};
pub use spare::Applied;
pub use spelled::spell_input;
pub use work::CallWork;
