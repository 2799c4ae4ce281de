//! Logs with holes: tables by slots of one window of 4,096, and sets of slots.
#![tactic(auto)]

mod closing;
mod errors;
mod freedom;
mod log;
mod ring;
mod slots;

pub use closing::closure;
pub use errors::WindowFull;
pub use freedom::is_free;
pub use log::HoleLog;
pub use ring::SlotRing;
pub use slots::SlotSet;
