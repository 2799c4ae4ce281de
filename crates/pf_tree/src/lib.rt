//! The tree of files: what each call makes of it, what it changes in the tables, and that the two agree.
#![tactic(auto)]

mod faults;
mod listing;
mod look;
mod plan;
mod tree;

pub use faults::{TreeFault, TreeRefusal};
pub use listing::{Listed, Listing};
pub use pf_tree_tables::{Change, Changes, DirectoryEntry, Inode, Tag, Txn};
pub use tree::Tree;
