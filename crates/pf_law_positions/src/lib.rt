//! Disk Paxos over groups: what mounts' ports asked and were answered, over any history of the groups, are registers.
#![tactic(auto)]

mod examples;
mod laws;

pub use examples::{a_half_is_read_after_a_move, a_mount_writes_its_block};
pub use laws::{
    halves_are_asked, halves_lie_in_chunks, hosted_journals_are_registers,
    hosted_positions_are_copies, hosted_positions_are_registers, hosted_positions_have_one_value,
    ports_follow_their_rule, spelled_blocks_are_asked, turns_are_told,
};
