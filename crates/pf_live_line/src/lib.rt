//! A live line: how its threads run over one shared group, what its list is afterwards, and how it ends.
#![tactic(auto)]

mod crew;
mod ending;
mod handing;
mod joining;
mod laws;
mod meeting;
mod mustering;
mod opening;
mod running;
mod taking;
mod worker;

pub use crew::Crew;
pub use ending::run_to_end;
pub use laws::lines_that_go_on_have_no_end;
pub use opening::{Passes, close, open};
pub use pf_live_seats;
pub use pf_live_seats::{pf_group, pf_group_rounds};
pub use running::run;
