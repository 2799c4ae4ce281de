//! Lines that show a group or a mount.
ghost use Rattle.std.specs.Prelude.{◌≡◌, ◌<◌, IsTrue, OnErr, OnOk, Some, length, slice_get};
ghost use Rattle.std.specs.Option.{option_map_or};
ghost use Rattle.pf_script.specs.declared.command.Command.TheVariants.{ShowMount};
ghost use Rattle.pf_live_session.specs.pf_group.specs.GroupIs.{state_of};
ghost use Rattle.pf_world.specs.Asked.{IsShow};
ghost use Rattle.pf_world.specs.Steps.{LineHasFailed, HasRun, IsOfMade, MayRun};
ghost use Rattle.pf_world.specs.Views.{IsWorld, named_in};

use crate::World;
use pf_base::NoMemory;
use pf_disk::Disk;
use pf_live_session::pf_chunk::ChunkGroup;
use pf_report::{put_refusal, put_state, put_tree};
use pf_script::Command;
use pf_world_hosts::NoMount;
use std::alloc::Global;

impl<D: Disk + Drop> World<D> {
    /// A line that shows a group.
    pub(crate) fn show(
        &self,
        number: u32,
        command: &Command,
        out: &mut Vec<u8>,
    ) -> Result<(), NoMemory>
        requires world { IsWorld self.now.world }
        requires command { MayRun (named_in self.now.world) command.now }
        requires made { IsOfMade self.now.world command.now }
        requires shows { IsShow command.now }
        ensures ran { OnOk result (HasRun self.now.world number command.now out.old.items out.new.items self.now.world) }
        ensures err { OnErr result (LineHasFailed self.now.world number command.now self.now.world) }
    {
        match command {
            Command::ShowLog { group, server } => {
                self.chunk(*group).show_log(number, *server, out)
            }
            Command::ShowApplied { group, server } => {
                self.chunk(*group).show_applied(number, *server, out)
            }
            Command::ShowSectors { group, server } => {
                self.chunk(*group).show_sectors(number, *server, out)
            }
            Command::ShowAcked { group } => self.chunk(*group).show_acked(number, out),
            Command::ShowMark {
                group,
                server,
                slot,
            } => self
                .chunk(*group)
                .show_mark(number, *server, u64::from(*slot), out),
            _ => unreachable!(),
        }
    }

    pub(crate) fn chunk(&self, number: u8) -> &ChunkGroup<D>
        requires { number < length self.now.world.chunks }
        ensures { slice_get self.now.world.chunks number ≡ Some result.now }
    {
        &self.chunks[number as usize]
    }

    /// How many slots of a group, whose disks tell their content, were acknowledged to hosts, and 0 where there is no such group.
    pub fn acked_count(&self, group: u8) -> usize
        ensures { IsTrue D.tells → result ≡ option_map_or (λ c. length (state_of c.group).acked) (slice_get self.now.world.chunks group) 0 }
    {
        match self.chunks.get(group as usize) {
            Some(chunk) => {
                // That the group knows whether its disks tell is asked of the proof alone.
                chunk.laws();
                chunk.acked_count()
            }
            None => 0,
        }
    }

    /// A line that shows the tree of a mount, and how far it is.
    pub(crate) fn show_mount(
        &self,
        alloc: Global,
        number: u32,
        mount: u8,
        out: &mut Vec<u8>,
    ) -> Result<(), NoMemory>
        requires world { IsWorld self.now.world }
        ensures ran { OnOk result (HasRun self.now.world number (ShowMount mount) out.old.items out.new.items self.now.world) }
        ensures err { OnErr result (LineHasFailed self.now.world number (ShowMount mount) self.now.world) }
    {
        let Some(host) = self.fleet.host(mount) else {
            return put_refusal(out, number, NoMount.number());
        };
        let listing = host.tree().listing(alloc)?;
        put_tree(out, &listing)?;
        put_state(out, number, mount, host.upto(), host.is_pending())
    }
}
