//! The two halves of a server's chunk log: records are appended to the current one, and a new image begins the other.
#![tactic(auto)]

mod halves;
mod pair;
mod place;
mod recovery;

pub use halves::Half;
pub use pair::Pair;
pub use place::PairPlace;
pub use recovery::HalfRecords;
