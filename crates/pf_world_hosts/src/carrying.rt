//! Chunks that move.
ghost use Rattle.std.specs.Prelude.{◌≡◌, ◌↔◌, ◌*◌, ◌<◌, IfSome, IsSome, IsTrue, None, OnErr, OnOk, Some, length, vec_capacity};
ghost use Rattle.std.specs.Option.{option_and_then};
ghost use Rattle.pf_mount_host.specs.pf_chunk.specs.Runs.{mover_port, new_ports};
ghost use Rattle.pf_mount_host.specs.pf_chunk.specs.Views.{ChunkIsReady};
ghost use Rattle.pf_mount_host.specs.pf_world_moments.specs.Parts.{AreQuiet};
ghost use Rattle.pf_mount_host.specs.pf_world_moments.specs.Steps.{AreReady};
ghost use Rattle.pf_move.specs.Movers.{AsksFor, ReplyFits};
ghost use Rattle.pf_move.specs.Routes.{between};
ghost use Rattle.pf_world_hosts.specs.Moves.{HasBegunMove, HasTakenUp, IsOfPiece, on_reply, mover_wants};
ghost use Rattle.pf_world_hosts.specs.Steps.{AllStay, AreHostsOf, AreSameHosts, FleetHasGone, FleetHasStopped, IsFleetOf};
ghost use Rattle.pf_world_hosts.specs.Volumes.{asks_in, mover_steps};

use crate::Fleet;
use pf_base::{Ask, NoMemory, Reply};
use pf_disk::Disk;
use pf_group_copy::{Gate, Workers};
use pf_mount_host::pf_chunk::{ChunkGroup, MOVER};
use pf_mount_host::pf_world_moments::drive_at;
use pf_move::{MoveNext, Mover, MoverAsk};
use pf_report::put_moved;
use std::alloc::Global;
use std::thread::Threads;

impl Fleet {
    /// Whether a chunk is moving.
    pub fn is_moving(&self) -> bool
        ensures { IsTrue result ↔ IsSome self.now.routes.moving }
    {
        self.routes.moving().is_some()
    }

    /// Begins to move a chunk to this new group: the group has the next number, and there is room for it. The chunk's ports go there and
    /// wait, and the mover asks to read the first eight sectors. It takes no memory.
    pub fn begin_move<D: Disk + Drop>(
        &mut self,
        alloc: Global,
        chunk: u8,
        mut group: ChunkGroup<D>,
        chunks: &mut Vec<ChunkGroup<D>>,
    )
        requires ready { AreReady chunks.old.items }
        requires fleet { IsFleetOf chunks.old.items self.old }
        requires chunk { chunk < length self.old.routes.routes }
        requires none { self.old.routes.moving ≡ None }
        requires number { group.group.number ≡ length chunks.old.items }
        requires few { length chunks.old.items < 8 }
        requires new { ChunkIsReady group × (group.ports ≡ new_ports) }
        requires room { length chunks.old.items < vec_capacity chunks.old }
        ensures { HasBegunMove chunk group chunks.old.items self.old chunks.new.items self.new }
    {
        let home = self.routes.home(chunk) as usize;
        let to = chunks.len() as u8;
        let from = &mut chunks[home];
        from.hand_ports(&mut group);
        chunks.push_reserved(group);
        self.routes.begin(chunk, to);
        let mut mover = Mover::new(chunk, self.volume.sectors());
        let Ok(next) = mover.next(alloc, &mut None) else {
            unreachable!()
        };
        let MoveNext::Read(range) = next else {
            unreachable!()
        };
        let from = &mut chunks[home];
        from.put(MOVER, Ask::Read { chunk, range });
        self.mover = Some(mover);
    }

    /// The group that the mover's pending ask goes to: it reads the old one, and writes the new one.
    fn mover_group(&self) -> Option<u8>
        requires { IfSome self.now.routes.moving (λ moving. moving.chunk < length self.now.routes.routes) }
        ensures { result ≡ asks_in (between self.now.routes) (option_and_then (λ m. m.asked) self.now.mover) }
    {
        let moving = self.routes.moving()?;
        let Some(mover) = &self.mover else {
            return None;
        };
        match mover.asked()? {
            MoverAsk::Reading => Some(self.routes.last_route(moving.chunk).group),
            MoverAsk::Writing => Some(moving.to),
        }
    }

    /// What the mover wants done: its ask goes into its port, or its chunk is served by its new group, which a line tells. `NoMemory` (1)
    /// leaves the groups as they were.
    fn take_up<D: Disk + Drop>(
        &mut self,
        chunk: u8,
        next: MoveNext,
        chunks: &mut [ChunkGroup<D>],
        out: &mut Vec<u8>,
    ) -> Result<(), NoMemory>
        requires ready { AreReady chunks.old }
        requires hosts { AreHostsOf chunks.old self.old }
        requires mover { IsSome self.old.mover }
        requires moving { IsSome self.old.routes.moving }
        requires chunk { IfSome self.old.routes.moving (λ moving. moving.chunk ≡ chunk) }
        requires quiet { AreQuiet mover_port chunks.old }
        requires asks { IfSome self.old.mover (AsksFor next) }
        requires piece { IfSome self.old.mover (IsOfPiece next) }
        requires pieces { IfSome self.old.mover (λ m. (m.chunk ≡ chunk) × (8 * m.pieces ≡ self.old.volume.sectors)) }
        ensures taken { OnOk result (IfSome self.old.mover (λ m. HasTakenUp (mover_wants m next) chunks.old self.old out.old.items chunks.new self.new
            out.new.items)) }
        ensures err { OnErr result (chunks.new ≡ chunks.old) }
    {
        let Some(moving) = self.routes.moving() else {
            unreachable!()
        };
        match next {
            MoveNext::Read(range) => {
                let from = &mut chunks[self.routes.last_route(moving.chunk).group as usize];
                from.put(MOVER, Ask::Read { chunk, range });
                Ok(())
            }
            MoveNext::Write(range, payload) => {
                let to = &mut chunks[moving.to as usize];
                to.put(
                    MOVER,
                    Ask::Write {
                        chunk,
                        range,
                        payload,
                    },
                );
                Ok(())
            }
            MoveNext::Switch => {
                put_moved(out, chunk)?;
                self.routes.switch();
                self.mover = None;
                Ok(())
            }
        }
    }

    /// The mover's pending ask was answered: it hears the reply, and wants the next thing. `NoMemory` (1) leaves the groups as they were.
    fn hear<D: Disk + Drop>(
        &mut self,
        alloc: Global,
        reply: Reply,
        chunks: &mut [ChunkGroup<D>],
        out: &mut Vec<u8>,
    ) -> Result<(), NoMemory>
        requires ready { AreReady chunks.old }
        requires hosts { AreHostsOf chunks.old self.old }
        requires mover { IsSome self.old.mover }
        requires moving { IsSome self.old.routes.moving }
        requires chunk { IfSome self.old.routes.moving (λ moving. IfSome self.old.mover (λ m. moving.chunk ≡ m.chunk)) }
        requires pieces { IfSome self.old.mover (λ m. (m.done < m.pieces) × (8 * m.pieces ≡ self.old.volume.sectors)) }
        requires fits { IfSome self.old.mover (λ m. ReplyFits m.asked (Some reply)) }
        requires quiet { AreQuiet mover_port chunks.old }
        ensures heard { OnOk result (IfSome self.old.mover (λ m. HasTakenUp (on_reply m reply) chunks.old self.old out.old.items chunks.new self.new
            out.new.items)) }
        ensures err { OnErr result (chunks.new ≡ chunks.old) }
    {
        let Some(mover) = &mut self.mover else {
            unreachable!()
        };
        let next = mover.next(alloc, &mut Some(reply))?;
        let chunk = mover.chunk();
        self.take_up(chunk, next, chunks, out)
    }

    /// One step of the mover, if there is one: where its pending ask was answered, it hears the reply and wants the next thing; and then
    /// its pending ask goes to the leader of the greatest term, where its port's rule says so. When its chunk has moved, a line is put at
    /// the end of `out`.
    ///
    /// After `NoMemory` (1) each group stands at a beginning of what would have happened to it; the hosts are not for use then.
    pub(crate) fn carry<D: Disk + Drop, R: Threads + Sync, G: Gate + Sync>(
        &mut self,
        workers: &Workers<'_, R, G>,
        chunks: &mut [ChunkGroup<D>],
        out: &mut Vec<u8>,
    ) -> Result<(), NoMemory>
        requires ready { AreReady chunks.old }
        requires fleet { IsFleetOf chunks.old self.old }
        ensures went { OnOk result (FleetHasGone mover_steps chunks.old self.old out.old.items chunks.new self.new out.new.items) }
        ensures same { OnOk result (AreSameHosts self.old self.new) }
        ensures stay { OnOk result (AllStay chunks.old chunks.new) }
        ensures err { OnErr result (FleetHasStopped mover_steps chunks.old self.old chunks.new) }
    {
        let Some(group) = self.mover_group() else {
            return Ok(());
        };
        let Some(reply) = drive_at(workers, MOVER, group, chunks, out)? else {
            return Ok(());
        };
        self.hear(workers.alloc, reply, chunks, out)?;
        let Some(group) = self.mover_group() else {
            return Ok(());
        };
        // It was not handed on before, so that nothing is answered yet.
        let _reply = drive_at(workers, MOVER, group, chunks, out)?;
        Ok(())
    }
}
