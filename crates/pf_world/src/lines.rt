//! The lines of a script.
ghost use Rattle.std.specs.Prelude.{◌≡◌, ◌<◌, ◌≤◌, ◌+◌, ◌*◌, ◌^◌, IsTrue, OnErr, OnOk, Some, false, length, nat_lt, true};
ghost use Rattle.std.specs.Option.{option_map_or};
ghost use Rattle.pf_script.specs.declared.command.Command.{Command as CommandIs};
ghost use Rattle.pf_script.specs.declared.command.Command.TheVariants.{Settle};
ghost use Rattle.pf_script.specs.Lines.{group_named};
ghost use Rattle.pf_live_session.specs.pf_chunk.specs.Asked.{ChunkMayAsk};
ghost use Rattle.pf_world.specs.Asked.{IsAllowed, IsSubmit, asked_by_line};
ghost use Rattle.pf_world.specs.Headline.{IsSoundWorld, WorldLeavesAtCrash};
ghost use Rattle.pf_world.specs.Making.{HasMadeMore};
ghost use Rattle.pf_world.specs.Running.{MayBeRun};
ghost use Rattle.pf_world.specs.Steps.{LineHasFailed, HasRun, IsOfMade, MayRun};
ghost use Rattle.pf_world.specs.Views.{IsWorld, named_in};

use crate::World;
use crate::kind::{Kind, kind_after};
use pf_base::NoMemory;
use pf_disk::Disk;
use pf_group_copy::{Gate, Workers};
use pf_live_session::pf_chunk::LineAsk;
use pf_live_session::pf_group::GroupEvent;
use pf_live_session::pf_live_seats::LinePlan;
use pf_report::{LineRefusal, put_answer, put_line_refusal, put_settle};
use pf_script::Command;
use std::sync::Wait;
use std::thread::Threads;

/// What a line asks of a group, with the group's number.
fn asked_of(command: &Command) -> Option<(u8, LineAsk)>
    ensures { result ≡ asked_by_line command.now }
{
    match command {
        Command::Submit {
            group,
            server,
            sector,
            byte,
            count,
        } => Some((*group, LineAsk::submit(*server, *sector, *byte, *count))),
        Command::Fetch {
            group,
            server,
            sector,
            count,
        } => Some((*group, LineAsk::fetch(*server, *sector, *count))),
        Command::Elect { group, server } => Some((
            *group,
            LineAsk::Event(GroupEvent::Elect(*server)),
        )),
        Command::Resend { group, server } => Some((
            *group,
            LineAsk::Event(GroupEvent::Resend(*server)),
        )),
        Command::Stop { group, server } => Some((
            *group,
            LineAsk::Event(GroupEvent::Stop(*server)),
        )),
        Command::Restart { group, server } => Some((
            *group,
            LineAsk::Event(GroupEvent::Restart(*server)),
        )),
        Command::Checkpoint { group, server } => Some((
            *group,
            LineAsk::Event(GroupEvent::Checkpoint(*server)),
        )),
        Command::Deliver { group, packet } => Some((
            *group,
            LineAsk::Event(GroupEvent::Deliver(*packet)),
        )),
        Command::Lose { group, packet } => Some((
            *group,
            LineAsk::Event(GroupEvent::Lose(*packet)),
        )),
        Command::Mark { group, server } => Some((
            *group,
            LineAsk::Event(GroupEvent::Mark(*server)),
        )),
        _ => None,
    }
}

impl<D: Disk + Drop + Send> World<D> {
    /// One line of a script, with its number and its command, which is no volume and whose numbers are in their ranges. Lines for what
    /// happened meanwhile (reads that were answered, mounts that are ready, calls that ended), and then its own line, are put at the end
    /// of `out`. Fewer than 2^32 - 1 calls were begun before, fewer `move` lines given, and there are disks for eight groups.
    ///
    /// A line that names a group that is not made is refused before all else: `NoGroup` (102).
    ///
    /// A line of threads runs on threads of its own, and ends by itself; the gate is called round each of their steps. The passes of the
    /// last one that was not refused stay in the world.
    ///
    /// A packet that a settling passed over is left again from the next line on. After `NoMemory` (1) the world stands in the middle of
    /// the line, and only `close` may be called.
    ///
    /// Then too, where disks tell their content, a crash at any moment since a group's last step began that may have touched disks, in
    /// this line or before it, left of each of its servers what that may hold before that step or right after it.
    pub fn line<R: Threads + Wait + Sync, G: Gate + Sync>(
        &mut self,
        workers: &Workers<'_, R, G>,
        number: u32,
        command: &Command,
        out: &mut Vec<u8>,
    ) -> Result<(), NoMemory>
        requires world { IsWorld self.old.world }
        requires command { MayRun (named_in self.old.world) command.now }
        requires few { self.old.world.fleet.calls + 1 < 2 ^ 32 }
        requires lines { self.old.world.moves + 1 < 2 ^ 32 }
        requires disks { 48 ≤ 6 * length self.old.world.chunks + length self.old.spare }
        ensures ran { OnOk result (HasRun self.old.world number command.now out.old.items out.new.items self.new.world) }
        ensures err { OnErr result (LineHasFailed self.old.world number command.now self.new.world) }
        ensures made { HasMadeMore D.faults self.old self.new }
        ensures sound { IsSoundWorld self.new.world }
        ensures crash { IsTrue D.tells → WorldLeavesAtCrash D.seen D.moment D.left_since D.tells_moments self.new.world }
    {
        let done = self.run(workers, number, command, out);
        self.laws();
        done
    }

    /// A line without the laws.
    fn run<R: Threads + Wait + Sync, G: Gate + Sync>(
        &mut self,
        workers: &Workers<'_, R, G>,
        number: u32,
        command: &Command,
        out: &mut Vec<u8>,
    ) -> Result<(), NoMemory>
        requires may { MayBeRun self.old command.now }
        ensures ran { OnOk result (HasRun self.old.world number command.now out.old.items out.new.items self.new.world) }
        ensures err { OnErr result (LineHasFailed self.old.world number command.now self.new.world) }
        ensures made { HasMadeMore D.faults self.old self.new }
    {
        if self.is_made(command.group()) {
            self.run_made(workers, number, command, out)
        } else {
            self.refuse(number, command, out)
        }
    }

    /// Whether this group is made, if it is one.
    fn is_made(&self, group: Option<u8>) -> bool
        ensures { result ≡ option_map_or (λ g. nat_lt g (length self.now.world.chunks)) group true }
    {
        match group {
            None => true,
            Some(group) => (group as usize) < self.chunks.len(),
        }
    }

    /// Refuses a line whose group is not made.
    fn refuse(&mut self, number: u32, command: &Command, out: &mut Vec<u8>) -> Result<(), NoMemory>
        requires world { IsWorld self.old.world }
        requires unmade { option_map_or (λ g. nat_lt g (length self.old.world.chunks)) (group_named command.now) true ≡ false }
        ensures ran { OnOk result (HasRun self.old.world number command.now out.old.items out.new.items self.new.world) }
        ensures err { OnErr result (LineHasFailed self.old.world number command.now self.new.world) }
        ensures made { HasMadeMore D.faults self.old self.new }
    {
        self.kind = kind_after(self.kind, command);
        put_line_refusal(out, number, LineRefusal::NoGroup)
    }

    /// A line whose group, if it names one, is made.
    fn run_made<R: Threads + Wait + Sync, G: Gate + Sync>(
        &mut self,
        workers: &Workers<'_, R, G>,
        number: u32,
        command: &Command,
        out: &mut Vec<u8>,
    ) -> Result<(), NoMemory>
        requires may { MayBeRun self.old command.now }
        requires made { IsOfMade self.old.world command.now }
        ensures ran { OnOk result (HasRun self.old.world number command.now out.old.items out.new.items self.new.world) }
        ensures err { OnErr result (LineHasFailed self.old.world number command.now self.new.world) }
        ensures made { HasMadeMore D.faults self.old self.new }
    {
        match command {
            Command::Submit { .. } => self.submit_line(workers, number, command, out),
            Command::Settle { limit } => self.settle_line(workers, number, *limit, out),
            Command::Live {
                group,
                hosts,
                writes,
                workers: appliers,
                turns,
            } => {
                let plan = LinePlan {
                    hosts: *hosts,
                    writes: *writes,
                    workers: *appliers,
                    turns: *turns,
                    sectors: self.sectors,
                };
                self.live_line(workers, number, *group, plan, out)
            }
            Command::Anchors => self.anchors_line(number, out),
            Command::Mount => self.mount_line(workers, number, out),
            Command::Kill { mount } => self.kill_line(number, *mount, out),
            Command::Call { mount, call } => self.call_line(workers, number, *mount, call, out),
            Command::Move { chunk } => self.move_line(workers, number, *chunk, out),
            Command::ShowMount { mount } => self.show_mount(workers.alloc, number, *mount, out),
            other => match asked_of(other) {
                Some((group, asked)) => self.ask_line(workers, number, group, asked, out),
                None => self.show(number, other, out),
            },
        }
    }
}

impl<D: Disk + Drop> World<D> {
    /// A line that asks a group for something. Numbers that are no range are no event: no host takes a step.
    fn ask_line<R: Threads + Sync, G: Gate + Sync>(
        &mut self,
        workers: &Workers<'_, R, G>,
        number: u32,
        group: u8,
        asked: LineAsk,
        out: &mut Vec<u8>,
    ) -> Result<(), NoMemory>
        requires world { IsWorld self.old.world }
        requires group { group < length self.old.world.chunks }
        requires asked { ChunkMayAsk asked }
        ensures ran { OnOk result ((command : CommandIs) → asked_by_line command ≡ Some (group, asked) → IsAllowed self.old.world.kind command
            → HasRun self.old.world number command out.old.items out.new.items self.new.world) }
        ensures err { OnErr result ((command : CommandIs) → asked_by_line command ≡ Some (group, asked) → IsAllowed self.old.world.kind command
            → LineHasFailed self.old.world number command self.new.world) }
        ensures spare { self.new.spare ≡ self.old.spare }
    {
        if let Some(server) = asked.no_range() {
            let answer = self.chunk(group).no_range(server);
            return put_answer(out, number, &answer);
        }
        let answer = self
            .fleet
            .ask(workers, &mut self.chunks, group, asked, out)?;
        put_answer(out, number, &answer)
    }

    /// A line that writes sectors. In a run with mounts it is refused.
    fn submit_line<R: Threads + Sync, G: Gate + Sync>(
        &mut self,
        workers: &Workers<'_, R, G>,
        number: u32,
        command: &Command,
        out: &mut Vec<u8>,
    ) -> Result<(), NoMemory>
        requires world { IsWorld self.old.world }
        requires command { MayRun (named_in self.old.world) command.now }
        requires made { IsOfMade self.old.world command.now }
        requires submits { IsSubmit command.now }
        ensures ran { OnOk result (HasRun self.old.world number command.now out.old.items out.new.items self.new.world) }
        ensures err { OnErr result (LineHasFailed self.old.world number command.now self.new.world) }
        ensures spare { self.new.spare ≡ self.old.spare }
    {
        let kind = Kind::Raw.decided(self.kind);
        self.kind = Some(kind);
        if kind.is_mounted() {
            return put_line_refusal(out, number, LineRefusal::Mounted);
        }
        let Some((group, asked)) = asked_of(command) else {
            unreachable!()
        };
        self.ask_line(workers, number, group, asked, out)
    }

    /// A line that settles.
    fn settle_line<R: Threads + Sync, G: Gate + Sync>(
        &mut self,
        workers: &Workers<'_, R, G>,
        number: u32,
        limit: u32,
        out: &mut Vec<u8>,
    ) -> Result<(), NoMemory>
        requires world { IsWorld self.old.world }
        requires limit { limit ≤ 1000000 }
        ensures ran { OnOk result (HasRun self.old.world number (Settle limit) out.old.items out.new.items self.new.world) }
        ensures err { OnErr result (LineHasFailed self.old.world number (Settle limit) self.new.world) }
        ensures spare { self.new.spare ≡ self.old.spare }
    {
        let stopped = self.fleet.settle(workers, &mut self.chunks, limit, out)?;
        put_settle(out, number, stopped)
    }
}
