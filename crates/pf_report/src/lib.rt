//! The lines of a report, and of a listing of records, each put at the end of a list of bytes with its line feed.
//!
//! `NoMemory` (1) is the only error, and leaves the list as it was. The list keeps its allocator, so these calls take none.
#![tactic(auto)]

mod answers;
mod generated;
mod lines;
mod live;
mod logs;
mod mounts;
mod moves;
mod records;
mod refusals;
mod sectors;

pub use answers::{put_answer, put_line_refusal, put_refusal, put_settle};
pub use generated::put_gen;
pub use live::put_live;
pub use logs::{put_acked, put_applied, put_log};
pub use mounts::{put_call, put_mount, put_ready, put_started, put_state, put_tree};
pub use moves::{put_moved, put_moving};
pub use records::put_record;
pub use refusals::LineRefusal;
pub use sectors::{put_mark, put_read, put_sectors};
