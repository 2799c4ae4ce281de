//! The tests of the top call: what no stored run shows, ends and disks that fail, and copies that are made at once.
//!
//! They stand above the crate that they call, since a crate with tests is proved twice.
#![tactic(auto)]

#[cfg(test)]
mod ends;
