//! A volume's sectors, numbered through its chunks.
#![tactic(auto)]

mod faults;
mod laws;
mod places;
mod volume;

pub use faults::{OutsideVolume, SplitFault};
pub use laws::places_are_apart;
pub use places::{Place, Places};
pub use volume::Volume;
