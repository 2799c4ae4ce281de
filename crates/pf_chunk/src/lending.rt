//! The group of a chunk is handed out, and taken back.
ghost use Rattle.std.specs.Prelude.{◌≡◌, OnOk};
ghost use Rattle.pf_chunk.specs.Lending.{HasTold, with_group};
ghost use Rattle.pf_chunk.specs.Telling.{now_taken};
ghost use Rattle.pf_chunk.specs.Views.{IsListed};

use crate::ChunkGroup;
use crate::telling::tell_reads;
use pf_asks::Port;
use pf_base::NoMemory;
use pf_chunk_waiting::WaitingReads;
use pf_disk::Disk;
use pf_group_rounds::pf_group::Group;
use std::marker::Model;

/// What stays of a chunk while its group is handed out.
#[derive(Drop)]
pub struct Lent {
    number: u8,
    waiting: WaitingReads,
    first_left: u32,
    next: u32,
    ports: Vec<Port>,
}

impl Model for Lent {
    ghost use Rattle.pf_chunk.specs.Lending.{LentIs};

    ghost Value = { LentIs };

    ghost view = { λ l. record { number = l.number; waiting = l.waiting.items; first_left = l.first_left; next = l.next; ports = l.ports.items } };
}

impl<D: Disk + Drop> ChunkGroup<D> {
    /// Hands the group out, to which more may happen then.
    pub fn lend(self) -> (Group<D>, Lent)
        ensures same { with_group result.1 result.0 ≡ self }
        ensures number { result.0.number ≡ result.1.number }
    {
        let ChunkGroup {
            group,
            number,
            waiting,
            first_left,
            next,
            ports,
        } = self;
        let lent = Lent {
            number,
            waiting,
            first_left,
            next,
            ports,
        };
        (group, lent)
    }

    /// Puts a line for each read of a line that was answered at the end of `out`, by the reads' numbers, and forgets those that wait no more.
    pub fn tell(&mut self, out: &mut Vec<u8>) -> Result<(), NoMemory>
        requires listed { IsListed self.old.group.taken self.old.waiting }
        ensures told { OnOk result (HasTold self.old out.old.items out.new.items self.new) }
        ensures same { self.new ≡ record self.old { group = now_taken self.old.group self.new.group.taken; waiting = self.new.waiting } }
    {
        tell_reads(&mut self.group, &mut self.waiting, self.number, out)
    }
}

impl Lent {
    /// The chunk with its group, once that is back. What happened to it meanwhile is not told yet.
    pub fn back<D: Disk + Drop>(self, group: Group<D>) -> ChunkGroup<D>
        requires { group.number ≡ self.number }
        ensures { result ≡ with_group self group }
    {
        let Lent {
            number,
            waiting,
            first_left,
            next,
            ports,
        } = self;
        ChunkGroup {
            group,
            number,
            waiting,
            first_left,
            next,
            ports,
        }
    }
}
