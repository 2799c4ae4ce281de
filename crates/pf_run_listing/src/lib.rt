//! What a restart would find on the two disks of a server, as text.
#![tactic(auto)]

mod disks;
mod laws;
mod listing;

pub use disks::list_server;
pub use laws::two_files_have_one_listing;
pub use listing::ListingOutcome;
