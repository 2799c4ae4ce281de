//! Packets that are left.
ghost use Rattle.std.specs.Prelude.{◌≡◌, ◌≤◌, IsTrue};
ghost use Rattle.pf_group.specs.GroupIs.{state_of};
ghost use Rattle.pf_group.specs.Packets.{IsFirstLeft, is_refused_for_room};

use crate::Group;
use pf_disk::Disk;
use pf_protocol::{Answer, Refusal};

/// Whether there was no room for what a delivery asks for.
pub fn is_passed_over(answer: &Answer) -> bool
    ensures { result ≡ is_refused_for_room answer.now }
{
    matches!(
        answer,
        Answer::Refused(Refusal::LogFull | Refusal::PacketsFull)
    )
}

impl<D: Disk> Group<D> {
    /// The least packet from `from` on that is left, or how many there are, where none is.
    pub fn left_from(&self, from: u32) -> u32
        ensures first { IsTrue self.now.told → IsFirstLeft (state_of self.now) from result }
        ensures above { from ≤ result }
        ensures few { from ≤ 65536 → result ≤ 65536 }
    {
        let packets = self.packets();
        for k in from..packets {
            if self.is_left(k) {
                return k;
            }
        }
        packets.max(from)
    }
}
