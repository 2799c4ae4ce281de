//! The tests of calls that read bytes and texts, or write them, against vectors from outside.
//!
//! They stand above the crates that they call, since a crate with tests is proved twice.
#![tactic(auto)]

#[cfg(test)]
mod generator;
#[cfg(test)]
mod journal;
#[cfg(test)]
mod layout;
#[cfg(test)]
mod records;
#[cfg(test)]
mod txn;
#[cfg(test)]
mod wire;
