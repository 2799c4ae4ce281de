//! Transactions as bytes, both ways.
#![tactic(auto)]

mod laws;
mod reading;
mod writing;

pub use laws::{spelled_transactions_are_read, transactions_tell_themselves};
pub use reading::read_txn;
pub use writing::spell;
