//! Scripts and lists of transactions: read line by line from a source, and judged whole before anything is run.
#![tactic(auto)]

mod checking;
mod counts;
mod ends;
mod refusal;
mod scan;
mod status;

pub use checking::check;
pub use ends::{Nowhere, write_all};
pub use refusal::end_at;
pub use scan::{LineReader, Stop, read_lines};
pub use status::Status;
