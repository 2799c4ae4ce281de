//! The layout of a volume: its superblock, and the paths of its files.
#![tactic(auto)]

mod calls;
mod faults;
mod laws;
mod path;
mod supers;

pub use calls::read_call;
pub use faults::PathFault;
pub use laws::{
    calls_are_read_alike, listed_paths_ascend, paths_below_begin_alike, paths_tell_themselves,
};
pub use path::{Path, is_name};
pub use supers::{BadSuper, read_super, spell_super};
