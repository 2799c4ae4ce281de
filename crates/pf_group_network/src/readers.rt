//! What a network shows.
ghost use Rattle.std.specs.Prelude.{◌≡◌, ◌≤◌, ◌<◌, ◌↔◌, IfNone, IfSome, IsTrue, MatchOption, Some, false, length, map, slice_get};
ghost use Rattle.pf_protocol.specs.Groups.{Group};
ghost use Rattle.pf_protocol.specs.Servers.{Setup};
ghost use Rattle.pf_group_network.specs.declared.kept.Parcel.{Parcel as ParcelIs};
ghost use Rattle.pf_group_network.specs.Showing.{Shows, acked_entry, taken_of};
ghost use Rattle.pf_group_network.specs.Shown.{Idles, IsLeader, IsRunningAt, NetworkIsShown, ListsUnread, TakesRead, is_acked, later_of, served_by};

use crate::{Acked, Network, Parcel};
use pf_base::{Data, ServerId, Slot, Term};
use pf_server::Server;
use pf_server_memory::{Role, Running};
use pf_server_store::Store;

/// The term in which a server serves, and its number. `None` exactly where it does not run, or does not serve.
fn served_by<S: Store>(server: &Server<S>) -> Option<(Term, ServerId)>
    ensures { result ≡ served_by server.now }
{
    let me = server.running()?;
    match &me.role {
        Role::Serving(_) => Some((me.term, server.seat.number)),
        Role::Follower | Role::Candidate(_) | Role::Merging(_) => None,
    }
}

/// Of two leaders the one of the greater term; the first, where both have the same.
fn later(
    first: Option<(Term, ServerId)>,
    second: Option<(Term, ServerId)>,
) -> Option<(Term, ServerId)>
    ensures { result ≡ later_of first second }
{
    let Some((term, number)) = first else {
        return second;
    };
    let Some((other, its)) = second else {
        return first;
    };
    if term < other {
        return Some((other, its));
    }
    Some((term, number))
}

impl<S: Store> Network<S> {
    /// Every packet that was ever sent, in order.
    pub fn packets(&self) -> &[Parcel]
        ensures { result.now ≡ self.now.packets.items }
    {
        &self.packets
    }

    /// How many packets were ever sent, at most 65,536.
    pub fn packet_count(&self) -> u32
        requires { length self.now.packets.items ≤ 65536 }
        ensures { result ≡ length self.now.packets.items }
    {
        self.packets.len() as u32
    }

    /// Whether packet `k` is there and was neither delivered nor lost.
    pub fn is_left(&self, k: u32) -> bool
        ensures { IsTrue result ↔ ((parcel : ParcelIs) × (slice_get self.now.packets.items k ≡ Some parcel) × (parcel.delivered ≡ false)
            × (parcel.lost ≡ false)) }
    {
        match self.packets.get(k as usize) {
            Some(parcel) => !parcel.delivered && !parcel.lost,
            None => false,
        }
    }

    /// The slots that were acknowledged to hosts, in order.
    pub fn acked(&self) -> &[Acked]
        ensures { (setup : Setup) (g : Group) → Shows S.model setup self.now g → result.now ≡ map acked_entry g.acked }
    {
        &self.acked.list
    }

    /// Whether the slot was acknowledged in this term.
    pub fn is_acked(&self, term: Term, slot: Slot) -> bool
        ensures { (setup : Setup) (g : Group) → Shows S.model setup self.now g → result ≡ is_acked g term slot }
    {
        self.acked.has(term, slot)
    }

    /// What a running server has in memory. `None` exactly where it does not run.
    pub fn running(&self, server: ServerId) -> Option<&Running>
        requires server { server < 3 }
        requires shown { NetworkIsShown S.model self.now }
        ensures { (setup : Setup) (g : Group) → Shows S.model setup self.now g → MatchOption result (Idles g server) (λ me. IsRunningAt g server me.now) }
    {
        self.servers[server as usize].running()
    }

    /// Of the running servers that serve the one of the greatest term: that term, and its number. `None` exactly where none serves.
    pub fn leader(&self) -> Option<(Term, ServerId)>
        ensures { (setup : Setup) (g : Group) → Shows S.model setup self.now g → IsLeader g result }
    {
        let mut leader = None;
        for server in &self.servers {
            leader = later(leader, served_by(server));
        }
        leader
    }

    /// Hands out the sectors that a read was answered with, once. `None` exactly where there is no read of this number, where it waits
    /// for its answer, or where the answer was handed out before; nothing changes then.
    pub fn take_read(&mut self, number: u64) -> Option<Data>
        ensures none { IfNone result (self.new ≡ self.old) }
        ensures taken { (setup : Setup) (g : Group) → Shows S.model setup self.old g → TakesRead g number (taken_of self.old) (taken_of self.new) result }
        ensures shows { (setup : Setup) (g : Group) → Shows S.model setup self.old g → Shows S.model setup self.new g }
        ensures same { self.new ≡ record self.old { readings = self.new.readings } }
    {
        self.readings.take(number)
    }

    /// The reads whose answers can be taken out, and maybe others.
    pub fn unread(&self) -> &[u64]
        ensures { (setup : Setup) (g : Group) → Shows S.model setup self.now g → ListsUnread g (taken_of self.now) result.now }
    {
        self.readings.unread()
    }
}
