//! A server begins again from its records: they are read from the store, folded into a state and tested, and a half of the first
//! format is saved anew.
#![tactic(auto)]

mod faults;
mod fitting;
mod halves;
mod lives;
mod reading;
mod recovery;
mod restarts;
mod seat;

pub use faults::RestartFault;
pub use reading::HalfReading;
pub use restarts::restart;
pub use seat::Seat;
