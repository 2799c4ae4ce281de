//! A group, with what a report needs beside it.
ghost use Rattle.std.specs.Prelude.{◌≡◌, [], IfErr, IfOk, IsTrue, List, length, replicate};
ghost use Rattle.pf_protocol.specs.Answers.{IsLegal, IsSetup};
ghost use Rattle.pf_group_rounds.specs.pf_group.specs.Crashing.{AllLeaveAtCrash, LeavesAtCrash};
ghost use Rattle.pf_group_rounds.specs.pf_group.specs.Leaving.{LeavesIn, as_seen};
ghost use Rattle.pf_group_rounds.specs.pf_group.specs.Sound.{IsSound};
ghost use Rattle.pf_group_rounds.specs.pf_group.specs.Making.{GroupIsMade, setup_with, six_faults};
ghost use Rattle.pf_asks.specs.Ports.{new_port};
ghost use Rattle.pf_group_rounds.specs.Agreeing.{chunk_standing};
ghost use Rattle.pf_group_rounds.specs.Halts.{Halt};
ghost use Rattle.pf_chunk.specs.Runs.{most_ports, new_run};
ghost use Rattle.pf_chunk.specs.Views.{ChunkIsReady, run_of};

use pf_asks::Port;
use pf_base::NoMemory;
use pf_chunk_waiting::WaitingReads;
use pf_disk::Disk;
use pf_group_rounds::pf_group::{Group, Six};
use pf_protocol::Answer;
use std::alloc::Global;
use std::marker::Model;

/// The port of the mover of a chunk, behind those of the sixteen mounts that a volume may have.
pub const MOVER: u8 = 16;

const MOST_PORTS: usize = 17;

/// The group of a chunk, with the ports of hosts into it.
#[derive(Drop)]
pub struct ChunkGroup<D: Disk> {
    pub(crate) group: Group<D>,
    pub(crate) number: u8,
    /// In the order of their numbers. A read is forgotten where its server runs in its term no more: then it is never answered.
    pub(crate) waiting: WaitingReads,
    /// No packet below this one is left.
    pub(crate) first_left: u32,
    /// Of the packets from `first_left` to this one those that are left were passed over by the settling that goes on.
    pub(crate) next: u32,
    /// The ways of hosts to the group, each by the number of its mount, and that of a mover.
    pub(crate) ports: Vec<Port>,
}

impl<D: Disk> Model for ChunkGroup<D> {
    ghost use Rattle.std.specs.Prelude.{◌≡◌};
    ghost use Rattle.pf_chunk.specs.Views.{ChunkIs};

    ghost Value = { ChunkIs };

    ghost view = { λ c. record { group = c.group; waiting = c.waiting.items; first_left = c.first_left; next = c.next; ports = c.ports.items } };

    ghost invariant = { λ c. c.group.number ≡ c.number };
}

/// A port for each mount that there may be, and one for a mover.
fn new_ports(alloc: Global) -> Result<Vec<Port>, NoMemory>
    ensures { IfOk result (λ ports. ports.items ≡ replicate most_ports new_port) }
{
    let mut ports = Vec::new(alloc);
    for mount in 0..MOST_PORTS {
        ports.push(Port::new())?;
    }
    Ok(ports)
}

impl<D: Disk + Drop> ChunkGroup<D> {
    /// Makes the group of a chunk on these disks, whatever they held and whatever they tell: its number in its volume, the sectors of the
    /// chunk, the most slots that a log entry names, and the format of the first halves, 1 or 2. `Done`, or `Halted` (52) where a disk of
    /// a server failed while it was formatted: such a server never runs.
    ///
    /// `NoMemory` (1) gives the disks back; nothing was called.
    pub fn new(
        alloc: Global,
        number: u8,
        sectors: u32,
        names: u8,
        format: u8,
        disks: Six<D>,
    ) -> Result<(ChunkGroup<D>, Answer), (Six<D>, NoMemory)>
        requires { IsSetup (setup_with sectors names format []) }
        ensures made { IfOk result (λ made. GroupIsMade number sectors names format D.tells (six_faults D.faults disks) made.0.group made.1) }
        ensures ready { IfOk result (λ made. ChunkIsReady made.0) }
        ensures run { IfOk result (λ made. (halts : List Halt) → run_of halts made.0 ≡ new_run (chunk_standing halts made.0.group)) }
        ensures err { IfErr result (λ back. back.0 ≡ disks) }
    {
        let ports = match new_ports(alloc) {
            Ok(ports) => ports,
            Err(NoMemory) => return Err((disks, NoMemory)),
        };
        let (group, answer) = Group::new(alloc, number, sectors, names, format, disks)?;
        let chunk = ChunkGroup {
            group,
            number,
            waiting: WaitingReads::new(alloc),
            first_left: 0,
            next: 0,
            ports,
        };
        Ok((chunk, answer))
    }

    /// Every law holds of all that happened to the group, and it is a legal history, where its disks tell their content. Where they do, a
    /// crash at any moment since its last step began that may have touched disks left of each server what that may hold before that step or
    /// right after it. It does nothing: that it is so is asked of the proof alone.
    pub fn laws(&self)
        ensures told { self.now.group.told ≡ D.tells }
        ensures legal { IsTrue self.now.group.told → IsLegal self.now.group.setup self.now.group.history }
        ensures sound { IsSound self.now.group.setup self.now.group.history }
        ensures crash { IsTrue self.now.group.told → AllLeaveAtCrash D.seen D.moment D.left_since D.tells_moments self.now.group }
    {
        self.group.laws();
    }

    /// How much has happened to the group.
    pub(crate) fn happened(&self) -> usize
        ensures { result ≡ length self.now.group.history }
    {
        self.group.happened()
    }

    /// Gives the disks back. What the group left on them is said of disks that tell their content.
    pub fn into_disks(self) -> Six<D>
        ensures left_0 { IsTrue self.group.told → LeavesIn self.group 0 (D.may_leave result.s0h0) (D.may_leave result.s0h1) }
        ensures left_1 { IsTrue self.group.told → LeavesIn self.group 1 (D.may_leave result.s1h0) (D.may_leave result.s1h1) }
        ensures left_2 { IsTrue self.group.told → LeavesIn self.group 2 (D.may_leave result.s2h0) (D.may_leave result.s2h1) }
        ensures seen_0 { IsTrue self.group.told → LeavesIn self.group 0 (as_seen (D.seen result.s0h0)) (as_seen (D.seen result.s0h1)) }
        ensures seen_1 { IsTrue self.group.told → LeavesIn self.group 1 (as_seen (D.seen result.s1h0)) (as_seen (D.seen result.s1h1)) }
        ensures seen_2 { IsTrue self.group.told → LeavesIn self.group 2 (as_seen (D.seen result.s2h0)) (as_seen (D.seen result.s2h1)) }
        ensures faults { six_faults D.faults result ≡ self.group.faults }
        ensures crash_0 { IsTrue self.group.told → LeavesAtCrash D.seen D.moment D.left_since D.tells_moments self.group 0 result.s0h0 result.s0h1 }
        ensures crash_1 { IsTrue self.group.told → LeavesAtCrash D.seen D.moment D.left_since D.tells_moments self.group 1 result.s1h0 result.s1h1 }
        ensures crash_2 { IsTrue self.group.told → LeavesAtCrash D.seen D.moment D.left_since D.tells_moments self.group 2 result.s2h0 result.s2h1 }
    {
        let ChunkGroup { group, .. } = self;
        group.into_disks()
    }
}
