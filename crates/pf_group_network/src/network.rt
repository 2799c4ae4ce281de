//! Three servers, and what they sent.
ghost use Rattle.std.specs.Prelude.{◌≡◌, ◌≤◌, length};
ghost use Rattle.pf_group_network.specs.Turned.{outbox_of};

use crate::{AckedList, Parcel, ReadTable};
use pf_server::Server;
use pf_server_memory::Outbox;
use pf_server_store::Store;
use std::alloc::Global;

/// The most packets that a group ever sends.
const PLACES: u32 = 65_536;

/// Three servers, and what they sent, acknowledged and answered. Every packet has its place from the beginning on, so a step that is
/// on a disk never wants memory for its packets.
#[derive(Drop)]
pub struct Network<S: Store> {
    /// The three, by their numbers: an array of a generic server would put words on its lending into every goal.
    pub servers: Vec<Server<S>>,
    /// Every packet that was ever sent, in order.
    pub packets: Vec<Parcel>,
    /// How many bytes more all packets may take.
    pub byte_room: u64,
    /// The slots that were acknowledged to hosts, in order.
    pub acked: AckedList,
    /// The reads, by their numbers.
    pub readings: ReadTable,
    /// How many elections there were, at most 64.
    pub elections: u32,
}

impl<S: Store> Network<S> {
    /// Room for the packets of one step.
    pub(crate) fn outbox(&self, alloc: Global) -> Outbox
        requires { length self.now.packets.items ≤ 65536 }
        ensures { result ≡ outbox_of self.now }
    {
        Outbox::new(alloc, PLACES - self.packet_count(), self.byte_room)
    }
}
