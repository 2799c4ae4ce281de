//! Plans of calls: laws of the transactions that planned calls become, and lemmas on what calls are answered, whatever list they are put into.
#![tactic(auto)]

mod laws;

pub use laws::{calls_of_words_can_be_spelled, plans_are_of_their_calls};
