//! The hosts of a volume and the mover of a chunk, and how they run over its groups.
//!
//! After each event of a group each host takes one step, in the order of their numbers, and then the mover.
#![tactic(auto)]

mod asking;
mod calling;
mod carrying;
mod faults;
mod fleet;
mod mounting;
mod settling;
mod stepping;

pub use faults::{HostCallFault, JoinFault, NoMount};
pub use fleet::Fleet;
pub use settling::Tried;
