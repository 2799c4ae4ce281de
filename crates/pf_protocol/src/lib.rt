//! The rules of a chunk group as a pure machine, and the laws of its histories.
//!
//! A group is three servers that keep one chunk, and the packets between them (PolarFS, ParallelRaft: a Raft whose entries
//! are acknowledged, committed and applied out of order). The rules are definitions: what one event makes of a
//! group. A law is a function with an empty body whose contract speaks of every history by the definitions alone.
#![tactic(auto)]

mod answers;
mod events;
mod examples;
mod kept;
mod laws;
mod viable;

pub use answers::{Answer, Refusal};
pub use events::{Event, Happening};
pub use examples::{
    deposed_leaders_answer_no_read, ghosts_are_void, slots_are_applied_beside_a_missing_one,
    slots_are_committed_out_of_order, slots_that_the_majority_holds_are_kept,
    slots_that_the_majority_lacks_are_given_away, slots_wait_for_those_they_do_not_name,
    starts_outlive_their_entries,
};
pub use kept::{
    applied_slots_are_covered, committed_slots_stand_on_chosen_ops, held_entries_are_proposals,
    histories_go_on, jobs_in_hand_are_apart, legal_histories_fit, open_claims_are_in_hand,
    packets_have_room, packets_tell_the_truth, sectors_hold_last_writes, starts_are_kept,
    waiting_reads_are_asked,
};
pub use laws::{
    acknowledged_writes_are_copies, chosen_ops_persist, chosen_writes_were_submitted,
    every_history_is_safe, merged_slots_were_chosen, named_slots_keep_their_op,
    nothing_old_is_taken, one_leader_to_a_term, ports_are_ordered, ports_follow_each_other,
    reads_are_fresh, snapshots_hold_all_slots,
};
pub use viable::{groups_stay_viable, starts_stay_few};
