//! Lines that show a group, as it is where its disks tell their content. A server that does not run is told as `down`.
ghost use Rattle.std.specs.Prelude.{◌≡◌, ◌<◌, IfOk, IsTrue, OnErr, OnOk, length, map};
ghost use Rattle.pf_group_rounds.specs.pf_group.specs.GroupIs.{state_of};
ghost use Rattle.pf_chunk.specs.Showing.{LineIsShown, acked_shown, applied_shown, log_shown, mark_shown, text_of_server, sectors_shown};

use crate::ChunkGroup;
use pf_base::{NoMemory, ServerId, Slot};
use pf_disk::Disk;
use pf_law_ports::pf_group_network::Acked;
use pf_report::{put_acked, put_applied, put_log, put_mark, put_refusal, put_sectors};
use std::alloc::Global;

/// The number of the refusal of a server that does not run.
const DOWN: u32 = 51;

/// The slots that were acknowledged to hosts.
fn slots_of(alloc: Global, acked: &[Acked]) -> Result<Vec<Slot>, NoMemory>
    ensures { IfOk result (λ slots. slots.items ≡ map (λ a. a.slot) acked.now) }
{
    let mut slots = Vec::with_capacity(alloc, acked.len())?;
    for one in acked {
        slots.push(one.slot)?;
    }
    Ok(slots)
}

impl<D: Disk + Drop> ChunkGroup<D> {
    /// Puts a line with the server's term, its checkpoint, and its log. `NoMemory` (1) puts nothing.
    pub fn show_log(&self, line: u32, server: ServerId, out: &mut Vec<u8>) -> Result<(), NoMemory>
        requires { server < 3 }
        ensures ok { OnOk result (LineIsShown self.now.group.told line (text_of_server (state_of self.now.group) server log_shown) out.old.items
            out.new.items) }
        ensures err { OnErr result (out.new.items ≡ out.old.items) }
    {
        match self.group.running(server) {
            Ok(me) => put_log(out, line, me.term, &me.log),
            Err(_) => put_refusal(out, line, DOWN),
        }
    }

    /// Puts a line with the server's checkpoint, and what it applied above it. `NoMemory` (1) puts nothing.
    pub fn show_applied(
        &self,
        line: u32,
        server: ServerId,
        out: &mut Vec<u8>,
    ) -> Result<(), NoMemory>
        requires { server < 3 }
        ensures ok { OnOk result (LineIsShown self.now.group.told line (text_of_server (state_of self.now.group) server applied_shown) out.old.items
            out.new.items) }
        ensures err { OnErr result (out.new.items ≡ out.old.items) }
    {
        match self.group.running(server) {
            Ok(me) => put_applied(out, line, me.log.base(), &me.applied),
            Err(_) => put_refusal(out, line, DOWN),
        }
    }

    /// Puts a line with the bytes of the server's sectors. `NoMemory` (1) puts nothing.
    pub fn show_sectors(
        &self,
        line: u32,
        server: ServerId,
        out: &mut Vec<u8>,
    ) -> Result<(), NoMemory>
        requires { server < 3 }
        ensures ok { OnOk result (LineIsShown self.now.group.told line (text_of_server (state_of self.now.group) server sectors_shown) out.old.items
            out.new.items) }
        ensures err { OnErr result (out.new.items ≡ out.old.items) }
    {
        match self.group.running(server) {
            Ok(me) => put_sectors(out, line, &me.sectors),
            Err(_) => put_refusal(out, line, DOWN),
        }
    }

    /// Puts a line with the server's snapshot of a slot. `NoMemory` (1) puts nothing.
    pub fn show_mark(
        &self,
        line: u32,
        server: ServerId,
        slot: Slot,
        out: &mut Vec<u8>,
    ) -> Result<(), NoMemory>
        requires { server < 3 }
        ensures ok { OnOk result (LineIsShown self.now.group.told line (text_of_server (state_of self.now.group) server (mark_shown slot)) out.old.items
            out.new.items) }
        ensures err { OnErr result (out.new.items ≡ out.old.items) }
    {
        match self.group.running(server) {
            Ok(me) => put_mark(out, line, slot, me.snapshots.get(slot)),
            Err(_) => put_refusal(out, line, DOWN),
        }
    }

    /// Puts a line with the slots that were acknowledged to hosts. `NoMemory` (1) puts nothing.
    pub fn show_acked(&self, line: u32, out: &mut Vec<u8>) -> Result<(), NoMemory>
        ensures ok { OnOk result (LineIsShown self.now.group.told line (acked_shown (state_of self.now.group)) out.old.items out.new.items) }
        ensures err { OnErr result (out.new.items ≡ out.old.items) }
    {
        let slots = slots_of(*out.allocator(), self.group.acked())?;
        put_acked(out, line, &slots)
    }

    /// How many slots were acknowledged to hosts, where the disks tell their content.
    pub fn acked_count(&self) -> usize
        ensures { IsTrue self.now.group.told → result ≡ length (state_of self.now.group).acked }
    {
        self.group.acked().len()
    }
}
