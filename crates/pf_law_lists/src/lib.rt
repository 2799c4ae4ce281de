//! One list of transactions over some anchors: laws of every history of a journal whose positions lie on them.
#![tactic(auto)]

mod laws;

pub use laws::{
    lists_are_decided, lists_over_all_anchors_are_whole, mounts_share_one_list,
    positions_are_decided_in_order, quiet_syncs_miss_nothing, transaction_lists_exist,
    values_are_decided_once,
};
