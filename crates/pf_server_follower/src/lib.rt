//! The rows of voters and followers: what a running server does with a request for a vote, an entry, a higher term, a commit,
//! a probe and an image.
//!
//! The rules are the definitions of pf_protocol. Each row carries out its rule over a store, and ends in one of four ways: it is
//! done, refused, out of memory, or cut off by a disk.
#![tactic(auto)]

mod accepts;
mod commits;
mod images;
mod probes;
mod replies;
mod terms;
mod votes;

pub use accepts::accept;
pub use commits::commit;
pub use images::image;
pub use probes::probe;
pub use terms::nack;
pub use votes::request_vote;
