//! A chunk's service: what its clients' ports did fits the groups that served it, through any number of moves.
#![tactic(auto)]

mod laws;

pub use laws::{
    answers_come_before_the_asks_leave, clients_wait_for_the_switch, deeds_fit_the_service,
    replies_answer_asks, what_is_handed_on_is_of_ports,
};
