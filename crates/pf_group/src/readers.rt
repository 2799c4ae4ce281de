//! What a group shows. Where its disks tell their content, that is of the state after its history.
ghost use Rattle.std.specs.Prelude.{◌≡◌, ◌<◌, ◌≤◌, IfNone, IfSome, IsTrue, length, map, slice_get};
ghost use Rattle.pf_group_network.specs.Showing.{acked_entry};
ghost use Rattle.pf_group_network.specs.Shown.{IsLeader, ListsUnread, is_acked};
ghost use Rattle.pf_group.specs.GroupIs.{state_of};
ghost use Rattle.pf_group.specs.Readers.{GroupHasTaken, LacksAnswer, is_left};

use crate::Group;
use pf_base::{Data, ServerId, Slot, Term};
use pf_disk::Disk;
use pf_group_network::Acked;

impl<D: Disk> Group<D> {
    /// The slots that were acknowledged to hosts, in order.
    pub fn acked(&self) -> &[Acked]
        ensures { IsTrue self.now.told → result.now ≡ map acked_entry (state_of self.now).acked }
    {
        self.network.acked()
    }

    /// Whether the slot was acknowledged in this term. It is found without going through the others.
    pub fn is_acked(&self, term: Term, slot: Slot) -> bool
        ensures { IsTrue self.now.told → result ≡ is_acked (state_of self.now) term slot }
    {
        self.network.is_acked(term, slot)
    }

    /// Of the running servers that serve the one of the greatest term: that term, and its number. `None` exactly where none serves.
    pub fn leader(&self) -> Option<(Term, ServerId)>
        ensures low { IfSome result (λ served. served.1 < 3) }
        ensures leader { IsTrue self.now.told → IsLeader (state_of self.now) result }
    {
        self.network.leader()
    }

    /// How many packets were ever sent, at most 65,536. They have the numbers below it.
    pub fn packets(&self) -> u32
        ensures few { result ≤ 65536 }
        ensures count { IsTrue self.now.told → result ≡ length (state_of self.now).packets }
    {
        self.network.packet_count()
    }

    /// Whether packet `k` was sent, and neither delivered nor lost.
    pub fn is_left(&self, k: u32) -> bool
        ensures sent { IsTrue result → k < 65536 }
        ensures left { IsTrue self.now.told → result ≡ is_left (slice_get (state_of self.now).packets k) }
    {
        self.network.is_left(k)
    }

    /// Hands out the sectors that a read was answered with, once. `None` exactly where no read has this number, where it waits for
    /// its answer, or where its answer was handed out; nothing changes then.
    pub fn take_read(&mut self, number: u64) -> Option<Data>
        ensures taken { IfSome result (λ bytes. GroupHasTaken self.old number bytes self.new) }
        ensures none { IfNone result (LacksAnswer self.old number) }
        ensures same { IfNone result (self.new ≡ self.old) }
        ensures numbered { IsTrue self.old.told → length self.old.taken ≡ (state_of self.old).reads }
    {
        self.network.take_read(number)
    }

    /// The reads whose answers can be handed out, and maybe others. They are told without going through the reads.
    pub fn unread(&self) -> &[u64]
        ensures { IsTrue self.now.told → ListsUnread (state_of self.now) self.now.taken result.now }
    {
        self.network.unread()
    }
}
