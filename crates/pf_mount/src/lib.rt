//! A mount whose journal lies by a layout, of whose anchors each ballot and each sync needs a quorum.
#![tactic(auto)]

mod answers;
mod ballots;
mod faults;
mod hands;
mod laws;
mod mount;
mod plans;
mod stand;
mod work;

pub use faults::StartFault;
pub use laws::{layouts_stay, mounts_are_ready_once_and_calls_end_once, pending_asks_stay};
pub use mount::Mount;
pub use work::{MountNext, MountTask, MountWork};
