//! What is in files: the bytes that calls leave in them, and how blocks of sectors hold these bytes. Laws of the calls, whatever mount makes
//! them: a law is a function with an empty body.
#![tactic(auto)]

mod examples;
mod laws;

pub use examples::{a_gap_is_zeros, files_move_with_their_directory, what_was_cut_is_zeros};
pub use laws::{
    calls_store_the_contents, file_data_go_step_by_step, planned_calls_have_a_virtual_run,
    reads_give_the_contents, reads_give_what_is_stored, serial_exchanges_tell_what_is_stored,
};
