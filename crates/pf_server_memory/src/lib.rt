//! A running server: what it has in memory of its records and beside them, what a step of it sends, and in what a step may end.
//!
//! The rules are the definitions of pf_protocol. A step is a rule that is carried out here: it judges and takes all its memory
//! first, then adds at most one record to the store, and then changes the memory, which cannot fail.
#![tactic(auto)]

mod adding;
mod copies;
mod faults;
mod idle;
mod outbox;
mod queue;
mod replies;
mod running;
mod sending;
mod spelling;

pub use adding::{add, add_entry, add_merged, save};
pub use copies::{copied_above, vote_of};
pub use faults::StepFault;
pub use idle::Idle;
pub use outbox::Outbox;
pub use replies::Replies;
pub use running::{Leader, Role, Running};
pub use sending::{others_of, send, send_accept_to_others, send_to_others};
pub use spelling::{spell_imaged, spell_state};
