//! Ports over groups: where a host's way to a group finds no event of anybody else between the calls of a step, what it hands on
//! follows the rule of ports, and its replies are the group's.
#![tactic(auto)]

mod examples;
mod laws;

pub use examples::a_write_is_acknowledged;
pub use laws::{
    driven_ports_follow_the_rule, driven_ports_hand_writes_to_leaders, looks_do_nothing,
    rehomed_ports_begin_anew, replies_answer_the_last_submission,
};
pub use pf_group_network;
