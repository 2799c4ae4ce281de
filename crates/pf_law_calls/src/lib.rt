//! Mounts over a layout, whatever any number of them hear: laws of the list of transactions that they share, of the trees that their tables stand
//! for, of what their calls are answered and behind what these are planned, and of what they ask and are answered at the port for file data.
#![tactic(auto)]

mod answers;
mod data;
mod inputs;
mod late;
mod lives;
mod trees;

pub use answers::calls_answer_as_the_tree;
pub use data::{data_exchanges_are_of_calls, file_data_go_as_planned, file_data_went_as_planned};
pub use inputs::{inputs_are_planned, lists_were_put_in};
pub use late::{calls_are_planned_late, calls_see_what_ended, ended_calls_are_below};
pub use lives::{
    answers_are_turns, ballots_begin_at_rest, ballots_write_spelled_blocks,
    mounts_are_of_a_journal, mounts_keep_their_layout, mounts_over_anchors_share_one_list,
    tables_are_those_of_decisions, whole_lists,
};
pub use trees::{calls_have_one_transaction, tables_stand_for_trees};
