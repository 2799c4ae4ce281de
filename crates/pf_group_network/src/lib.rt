//! Three servers, and every packet that they ever sent. Each call carries out one event of the group, as the definitions of
//! pf_protocol have it.
//!
//! What a call says of the network holds for every setup and past that led to it: the network stands for the group of that past before
//! the event, and for the group with the event after it. A past is no more than a viable group, so it holds over any disks; what is
//! said of a restart alone is weaker where its disks do not tell their content.
#![tactic(auto)]

mod acked;
mod ends;
mod jobs;
mod keeping;
mod kept;
mod lives;
mod network;
mod packets;
mod quiet;
mod readers;
mod reads;
mod requests;
mod upkeep;

pub use acked::AckedList;
pub use keeping::put;
pub use kept::{Acked, Parcel, Reading};
pub use lives::restarts_lead_on;
pub use network::Network;
pub use pf_server;
pub use quiet::is_quiet;
pub use reads::ReadTable;
