//! What is in files, where calls go one at a time, or those that touch a block do: a read gives what the calls before it have left. Laws of mounts
//! whose ports ask for blocks of chunks that groups serve.
#![tactic(auto)]

mod laws;

pub use laws::{
    calls_of_one_mount_are_one_at_a_time, calls_one_at_a_time_go_one_by_one,
    data_of_calls_one_at_a_time_are_serial, reads_of_calls_one_at_a_time_give_the_contents,
    reads_of_calls_that_are_apart_give_the_contents,
};
