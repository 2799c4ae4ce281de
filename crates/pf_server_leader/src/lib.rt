//! The rows of candidates and leaders: what a running server does with a submission, with the call of an election, with an
//! acknowledgement, and when it is to send again.
//!
//! The rules are the definitions of pf_protocol. Each row carries out its rule over a store, and ends in one of four ways: it is
//! done, refused, out of memory, or cut off by a disk.
#![tactic(auto)]

mod acks;
mod catch_up;
mod counts;
mod elections;
mod plans;
mod resends;
mod submits;
mod ways;

pub use acks::ack;
pub use catch_up::plan;
pub use elections::elect;
pub use resends::resend;
pub use submits::submit;
pub use ways::SubmitPlan;
