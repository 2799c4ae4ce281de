//! How a server of a new group begins: its two disks are formatted, and it runs in the group's opening state.
#![tactic(auto)]

mod fresh;
mod room;

pub use fresh::first_record;
pub use room::ServerRoom;
