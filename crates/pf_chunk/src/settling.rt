//! Packets are delivered until none is left.
ghost use Rattle.std.specs.Prelude.{◌≡◌, ◌≤◌, ◌<◌, ◌+◌, IfOk, IfSome, IsTrue, OnErr, OnOk, None, Some, true};
ghost use Rattle.pf_group_rounds.specs.pf_group.specs.GroupIs.{state_of};
ghost use Rattle.pf_protocol.specs.Answers.{most_packets};
ghost use Rattle.pf_protocol.specs.declared.events.Event.TheVariants.{Deliver};
ghost use Rattle.pf_chunk.specs.Happenings.{happened};
ghost use Rattle.pf_group_rounds.specs.pf_group.specs.Packets.{IsFirstLeft, is_left_in, least_from};
ghost use Rattle.pf_chunk.specs.Settling.{SettlingHasTried};
ghost use Rattle.pf_chunk.specs.Steps.{EventHasFailed};
ghost use Rattle.pf_chunk.specs.Views.{ChunkIsReady, run_of};

use crate::ChunkGroup;
use pf_base::NoMemory;
use pf_disk::Disk;
use pf_group_copy::{Gate, Workers};
use pf_group_rounds::pf_group::{GroupEvent, is_passed_over};
use pf_protocol::Answer;
use std::thread::Threads;

/// What became of a packet that a settling took.
#[derive(Clone, Copy, Debug, PartialEq, Eq)]
pub enum TryEnd {
    /// There was no room for what it asks for, and it stays until the line ends.
    Passed,
    /// It came, and was refused or not.
    Delivered { refused: bool },
}

/// One try of a settling: the packet that it took, by its number in this group, and what became of it.
#[derive(Clone, Copy, Debug, PartialEq, Eq)]
pub struct Try {
    pub group: u8,
    pub packet: u32,
    pub end: TryEnd,
}

impl<D: Disk + Drop> ChunkGroup<D> {
    /// A settling begins: no packet was passed over yet.
    pub fn begin_settling(&mut self)
        requires ready { ChunkIsReady self.old }
        ensures ready { ChunkIsReady self.new }
        ensures few { self.new.next ≤ 65536 }
        ensures same { self.new ≡ record self.old { first_left = self.new.next; next = self.new.next } }
    {
        self.first_left = self.group.left_from(self.first_left);
        self.next = self.first_left;
    }

    /// The least packet that is left and was not passed over, where the disks tell their content; and one that may be, where they do not.
    pub fn next_left(&mut self) -> Option<u32>
        ensures least { IsTrue self.old.group.told → result ≡ least_from self.old.next (state_of self.old.group) }
        ensures first { IsTrue self.old.group.told → IsFirstLeft (state_of self.old.group) self.old.next self.new.next }
        ensures same { self.new ≡ record self.old { next = self.new.next } }
        ensures found { IfSome result (λ k. self.new.next ≡ k) }
        ensures sent { IfSome result (λ k. k < 65536) }
        ensures above { self.old.next ≤ self.new.next }
        ensures few { self.old.next ≤ 65536 → self.new.next ≤ 65536 }
    {
        self.next = self.group.left_from(self.next);
        if self.next < self.group.packets() {
            Some(self.next)
        } else {
            None
        }
    }

    /// Delivers the next packet, which is left where the disks tell their content. Where its record or its packets have no room it is
    /// passed over. For the rest see `ask`.
    pub fn settle_one<R: Threads + Sync, G: Gate + Sync>(
        &mut self,
        workers: &Workers<'_, R, G>,
        out: &mut Vec<u8>,
    ) -> Result<Try, NoMemory>
        requires ready { ChunkIsReady self.old }
        requires next { self.old.next < 65536 }
        requires left { IsTrue self.old.group.told → is_left_in (state_of self.old.group) self.old.next ≡ true }
        ensures went { IfOk result (λ tried. SettlingHasTried self.old out.old.items tried out.new.items self.new) }
        ensures few { OnOk result (self.old.next < most_packets) }
        ensures err { OnErr result (EventHasFailed (λ halts. (happened halts (run_of halts self.old) (Deliver self.old.next)).chunk.group) self.old.group
            self.new.group) }
    {
        let k = self.next;
        // That the history is legal is asked of the proof alone.
        self.group.laws();
        let answer = self.happen(workers, GroupEvent::Deliver(k), out)?;
        let refused = matches!(answer, Answer::Refused(_));
        if is_passed_over(&answer) {
            self.next = k + 1;
            Ok(Try {
                group: self.number,
                packet: k,
                end: TryEnd::Passed,
            })
        } else {
            Ok(Try {
                group: self.number,
                packet: k,
                end: TryEnd::Delivered { refused },
            })
        }
    }
}
