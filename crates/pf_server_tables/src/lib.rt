//! Small tables of a server: starts by term, acknowledgements by slot, what is known of the other servers, snapshots by mark, and
//! values of a few slots. What changes them takes no memory, but for `Few::put`: the room is taken before.
#![tactic(auto)]

mod acks;
mod few;
mod known;
mod room;
mod snapshots;
mod starts;
mod table;

pub use acks::Acks;
pub use few::Few;
pub use known::Known;
pub use room::CopyRoom;
pub use snapshots::Snapshots;
pub use starts::StartTable;
pub use table::SectorTable;
