//! The threads of a live line over one shared group.
#![tactic(auto)]

mod applying;
mod hosting;
mod laws;
mod line;
mod plan;
mod serving;
mod submitting;
mod switching;

pub use applying::Applier;
pub use hosting::HostSeat;
pub use laws::ends_exclude_each_other;
pub use line::{Bells, HostRings, LiveLine};
pub use pf_shared;
pub use pf_shared::{pf_group, pf_group_rounds};
pub use plan::LinePlan;
pub use serving::{Served, Standing, Target};
pub use submitting::Submitter;
pub use switching::Switch;
