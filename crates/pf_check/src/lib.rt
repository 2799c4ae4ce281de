//! Judging transactions: the tables that they make where nothing is refused, and whether these stand for a tree.
#![tactic(auto)]

mod hex_line;
mod judging;
mod laws;
mod naming;
mod reaching;
mod rows;
mod rules;
mod tables;
mod tagging;

pub use hex_line::read_hex;
pub use judging::{Verdict, judge};
pub use laws::{changes_do_what_they_name, verdicts_are_alike};
pub use tables::{RawInode, Tables};
