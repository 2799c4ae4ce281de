//! Live lines over a chunk: its group is handed to threads until their line has ended, and then followed up.
#![tactic(auto)]

mod lent;
mod living;
mod session;
mod totals;

pub use living::{live_at, live_in};
pub use pf_chunk;
pub use pf_chunk::pf_group;
pub use pf_live_line;
pub use pf_live_line::pf_live_seats;
pub use session::{Lived, live};
pub use totals::Totals;
