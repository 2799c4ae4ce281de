//! A chunk through its epochs: each of its sectors is one register, however often the chunk is moved from one group to another. A law
//! is a function with an empty body whose contract speaks of every history.
#![tactic(auto)]

mod examples;
mod laws;

pub use examples::{a_sector_is_moved_between_two_writers, a_sector_is_written_after_two_moves};
pub use laws::{
    a_routed_sector_has_one_order, reads_give_the_last_write, routed_journals_are_registers,
    routed_positions_are_registers, routed_positions_have_one_value, routed_sectors_are_registers,
    switched_chunks_were_carried,
};
