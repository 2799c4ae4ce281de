//! A host over a layout: its mount, and where its pending asks are.
ghost use Rattle.std.specs.Prelude.{◌≡◌, ◌≢◌, ◌↔◌, ◌+◌, ◌<◌, ◌≤◌, ◌^◌, List, ℕ, IfErr, IfOk, IfSome, IsErrOf, IsTrue, None, OnErr, OnOk, length};
ghost use Rattle.pf_journal.specs.Layouts.{VolumeHasRoom};
ghost use Rattle.pf_mount.specs.Nexts.{ports_of};
ghost use Rattle.pf_mount.specs.Standing.{AnswersPort};
ghost use Rattle.pf_mount.specs.declared.work.MountWork.TheVariants.{Rests};
ghost use Rattle.pf_world_moments.specs.pf_chunk.specs.Views.{ChunkIs};
ghost use Rattle.pf_world_moments.specs.Parts.{AreQuiet};
ghost use Rattle.pf_world_moments.specs.Steps.{AreReady};
ghost use Rattle.pf_world_moments.specs.Words.{read_call};
ghost use Rattle.pf_move.specs.Routes.{AreRouted, RoutesIs};
ghost use Rattle.pf_mount_host.specs.Calling.{HasBegunCall, StartRefuses};
ghost use Rattle.pf_mount_host.specs.Hosts.{asks, asks_all, asks_on, group_asked_at, hands_ask, hears, hears_all, made_host, pending_at};
ghost use Rattle.pf_mount_host.specs.Parts.{MountHasTaken};
ghost use Rattle.pf_mount_host.specs.Steps.{AreReadyFor, HasDone, HasNotDone, HasNotStepped, HostHasStepped, IsAnchoredHostOf};

use crate::ports::{hear_at, lead_at, put_next};
use pf_base::{Bytes, Call, NoMemory, Reply};
use pf_disk::Disk;
use pf_group_copy::{Gate, Workers};
use pf_journal::Layout;
use pf_mount::{Mount, StartFault, layouts_stay, pending_asks_stay};
use pf_move::Routes;
use pf_tree::Tree;
use pf_volume::Volume;
use pf_world_moments::pf_chunk::ChunkGroup;
use std::alloc::Global;
use std::marker::Model;
use std::thread::Threads;

/// The most ports that a host has.
const PORTS: usize = 4;

/// A host of a volume whose journal lies by a layout. At each of its ports at most one ask is pending at a time.
pub struct Host {
    mount: Mount,
    /// Of each port the chunk of the ask that is pending there.
    at: [Option<u8>; PORTS],
}

/// By hand, so that what lets it go calls this, and no crate above proves anew how its parts go.
impl Drop for Host {
    fn drop(self) {
        let Host { mount: _, at: _ } = self;
    }
}

impl Model for Host {
    ghost use Rattle.std.specs.Prelude.{◌≡◌, ◌<◌, length};
    ghost use Rattle.pf_mount_host.specs.Hosts.{HostIs};

    ghost Value = { HostIs };

    ghost view = { λ h. record { mount = h.mount; at = h.at } };

    ghost invariant = { λ h. (h.mount.files.mount < 16) × (length h.at ≡ 4) };
}

impl Host {
    /// The host of mount `number` of a volume that has room for the layout. It asks in its steps alone. The one error is `NoMemory` (1).
    pub fn new(alloc: Global, layout: Layout, number: u8, volume: Volume) -> Result<Host, NoMemory>
        requires number { number < 16 }
        requires volume { VolumeHasRoom layout volume }
        ensures made { IfOk result (λ host. host ≡ made_host layout number volume) }
        ensures is_host { IfOk result (λ host. (routes : RoutesIs) (chunks : List ChunkIs) → volume.chunks ≡ length routes.routes → AreQuiet number chunks
            → IsAnchoredHostOf routes chunks host) }
    {
        let mount = Mount::new(alloc, layout, number, volume)?;
        Ok(Host {
            mount,
            at: [None, None, None, None],
        })
    }

    /// Begins a call, with a sync. A call that ends at once writes its event line at the end of `out`.
    ///
    /// `CallPending` (91) comes exactly where the mount is not ready or a call of it has not ended, else `BadName` (80) where a word of the
    /// call is no path, or `/` where a directory is removed or a path renamed; both leave the host as it was. `NoMemory` (1) comes where
    /// memory has run out; the host is not for use then. Fewer than 2^32 - 1 calls were started before.
    pub fn start(
        &mut self,
        alloc: Global,
        call: &Call<Bytes>,
        out: &mut Vec<u8>,
    ) -> Result<(), StartFault>
        requires few { self.old.mount.files.calls + 1 < 2 ^ 32 }
        ensures began { OnOk result (HasBegunCall call.now out.old.items self.old out.new.items self.new) }
        ensures pending { IsErrOf result StartFault.CallPending ↔ (self.old.mount.task.work ≢ Rests) }
        ensures bad_name { IsErrOf result StartFault.BadName → read_call call.now ≡ None }
        ensures refused { IfErr result (λ fault. StartRefuses fault self.old self.new) }
        ensures unwritten { IfErr result (λ fault. fault ≢ StartFault.NoMemory → out.new.items ≡ out.old.items) }
    {
        pending_asks_stay();
        layouts_stay();
        let number = self.mount.number();
        let name = call.name();
        let next = self.mount.start(alloc, call)?;
        put_next(out, number, Some(name), next)?;
        Ok(())
    }

    /// The number of its mount.
    pub fn number(&self) -> u8
        ensures { result ≡ self.now.mount.files.mount }
    {
        self.mount.number()
    }

    /// The tables of its mount.
    pub fn tree(&self) -> &Tree
        ensures { result.now.tables ≡ self.now.mount.files.tables }
    {
        self.mount.tree()
    }

    /// How many transactions its mount has applied.
    pub fn upto(&self) -> u32
        ensures upto { result ≡ self.now.mount.upto }
        ensures most { result ≤ 256 }
    {
        self.mount.upto()
    }

    /// Whether its mount is not ready, or a call of it has not ended.
    pub fn is_pending(&self) -> bool
        ensures { IsTrue result ↔ (self.now.mount.task.work ≢ Rests) }
    {
        self.mount.is_pending()
    }

    /// One step of the host. First its mount takes what its ports were answered, each port in turn. Then each port, in turn, has what the
    /// mount asks there next, unless an ask for the same chunk is pending, and its ask goes to the leader of the greatest term, where the
    /// port's rule says so; what that event makes free is applied. An ask for a chunk that is moving waits. Lines are put at the end of
    /// `out`: of reads of lines that were answered, of a mount that is ready, of a call that ended.
    ///
    /// After `NoMemory` (1) each group stands at a beginning of what would have happened to it; the host is not for use then.
    pub fn step<D: Disk + Drop, R: Threads + Sync, G: Gate + Sync>(
        &mut self,
        workers: &Workers<'_, R, G>,
        routes: &Routes,
        chunks: &mut [ChunkGroup<D>],
        out: &mut Vec<u8>,
    ) -> Result<(), NoMemory>
        requires ready { AreReady chunks.old }
        requires routes { AreRouted (length chunks.old) routes.now }
        requires host { IsAnchoredHostOf routes.now chunks.old self.old }
        ensures went { OnOk result (HostHasStepped routes.now chunks.old out.old.items self.old chunks.new out.new.items self.new) }
        ensures err { OnErr result (HasNotStepped routes.now chunks.old self.old chunks.new) }
    {
        self.hear_all(workers.alloc, routes, chunks, out)?;
        self.ask_all(workers, routes, chunks, out)
    }

    /// The mount takes what its ports were answered, each port in turn.
    fn hear_all<D: Disk + Drop>(
        &mut self,
        alloc: Global,
        routes: &Routes,
        chunks: &mut [ChunkGroup<D>],
        out: &mut Vec<u8>,
    ) -> Result<(), NoMemory>
        requires ready { AreReadyFor routes.now chunks.old self.old }
        ensures went { OnOk result (HasDone (λ halts r cs h. hears_all r cs h) routes.now chunks.old out.old.items self.old chunks.new out.new.items self.new) }
        ensures err { OnErr result (HasNotDone (λ halts r cs h. hears_all r cs h) routes.now chunks.old self.old chunks.new) }
    {
        for port in 0..self.mount.ports() {
            self.hear(alloc, port, routes, chunks, out)?;
        }
        Ok(())
    }

    /// Each port, in turn, has what the mount asks there next, and hands its ask on.
    fn ask_all<D: Disk + Drop, R: Threads + Sync, G: Gate + Sync>(
        &mut self,
        workers: &Workers<'_, R, G>,
        routes: &Routes,
        chunks: &mut [ChunkGroup<D>],
        out: &mut Vec<u8>,
    ) -> Result<(), NoMemory>
        requires ready { AreReadyFor routes.now chunks.old self.old }
        ensures went { OnOk result (HasDone asks_all routes.now chunks.old out.old.items self.old chunks.new out.new.items self.new) }
        ensures err { OnErr result (HasNotDone asks_all routes.now chunks.old self.old chunks.new) }
    {
        for port in 0..self.mount.ports() {
            self.ask_on(workers, port, routes, chunks, out)?;
        }
        Ok(())
    }

    /// What the mount asks at the port goes into its group, and the ask that is pending there goes to the leader.
    fn ask_on<D: Disk + Drop, R: Threads + Sync, G: Gate + Sync>(
        &mut self,
        workers: &Workers<'_, R, G>,
        port: u8,
        routes: &Routes,
        chunks: &mut [ChunkGroup<D>],
        out: &mut Vec<u8>,
    ) -> Result<(), NoMemory>
        requires port { port < ports_of self.old.mount }
        requires ready { AreReadyFor routes.now chunks.old self.old }
        ensures went { OnOk result (HasDone (λ halts r cs h. asks_on halts r port cs h) routes.now chunks.old out.old.items self.old chunks.new out.new.items
            self.new) }
        ensures err { OnErr result (HasNotDone (λ halts r cs h. asks_on halts r port cs h) routes.now chunks.old self.old chunks.new) }
    {
        self.ask(workers.alloc, port, routes, chunks)?;
        self.hand(workers, port, routes, chunks, out)
    }

    /// The group to which the ask goes that is pending at a port: none where nothing is pending there, or its chunk is moving.
    fn group(&self, routes: &Routes, port: u8) -> Option<u8>
        requires port { port < 4 }
        requires chunk { IfSome (pending_at self.now port) (λ chunk. chunk < length routes.now.routes) }
        ensures { result ≡ group_asked_at routes.now self.now port }
    {
        let route = routes.route(self.at[port as usize]?)?;
        Some(route.group)
    }

    /// The mount takes a reply at the port, which is free then; a line tells what ended. After `NoMemory` (1) the host is not for use.
    fn take(
        &mut self,
        alloc: Global,
        port: u8,
        reply: Reply,
        out: &mut Vec<u8>,
    ) -> Result<(), NoMemory>
        requires port { port < ports_of self.old.mount }
        requires reply { AnswersPort self.old.mount port reply }
        ensures { OnOk result (MountHasTaken port reply out.old.items self.old out.new.items self.new) }
    {
        let number = self.mount.number();
        let name = self.mount.call();
        let next = self.mount.on_answer(alloc, port, reply)?;
        self.at[port as usize] = None;
        put_next(out, number, name, next)
    }

    /// Where the ask that is pending at the port was answered, the mount takes the reply.
    fn hear<D: Disk + Drop>(
        &mut self,
        alloc: Global,
        port: u8,
        routes: &Routes,
        chunks: &mut [ChunkGroup<D>],
        out: &mut Vec<u8>,
    ) -> Result<(), NoMemory>
        requires port { port < ports_of self.old.mount }
        requires ready { AreReadyFor routes.now chunks.old self.old }
        ensures went { OnOk result (HasDone (λ halts r cs h. hears r port cs h) routes.now chunks.old out.old.items self.old chunks.new out.new.items
            self.new) }
        ensures err { OnErr result (HasNotDone (λ halts r cs h. hears r port cs h) routes.now chunks.old self.old chunks.new) }
    {
        pending_asks_stay();
        layouts_stay();
        let Some(group) = self.group(routes, port) else {
            return Ok(());
        };
        let number = self.mount.number();
        let Some(reply) = hear_at(alloc, number, group, chunks)? else {
            return Ok(());
        };
        self.take(alloc, port, reply, out)
    }

    /// What the mount asks at the port goes into its group, unless an ask for the same chunk is pending. After `NoMemory` (1) the groups are
    /// as they were.
    fn ask<D: Disk + Drop>(
        &mut self,
        alloc: Global,
        port: u8,
        routes: &Routes,
        chunks: &mut [ChunkGroup<D>],
    ) -> Result<(), NoMemory>
        requires port { port < ports_of self.old.mount }
        requires ready { AreReadyFor routes.now chunks.old self.old }
        ensures went { OnOk result ((text : List ℕ) → HasDone (λ halts r cs h. asks r port cs h) routes.now chunks.old text self.old chunks.new text self.new) }
        ensures err { OnErr result (chunks.new ≡ chunks.old) }
    {
        pending_asks_stay();
        layouts_stay();
        let number = self.mount.number();
        let Some(ask) = self.mount.ask(alloc, port, &self.at)? else {
            return Ok(());
        };
        let at = ask.chunk();
        let group = &mut chunks[routes.home(at) as usize];
        group.put(number, ask);
        self.at[port as usize] = Some(at);
        Ok(())
    }

    /// The ask that is pending at the port goes to the leader of the greatest term, where the port's rule says so.
    fn hand<D: Disk + Drop, R: Threads + Sync, G: Gate + Sync>(
        &self,
        workers: &Workers<'_, R, G>,
        port: u8,
        routes: &Routes,
        chunks: &mut [ChunkGroup<D>],
        out: &mut Vec<u8>,
    ) -> Result<(), NoMemory>
        requires port { port < ports_of self.now.mount }
        requires ready { AreReadyFor routes.now chunks.old self.now }
        ensures went { OnOk result (HasDone (λ halts r cs h. hands_ask halts r port cs h) routes.now chunks.old out.old.items self.now chunks.new out.new.items
            self.now) }
        ensures err { OnErr result (HasNotDone (λ halts r cs h. hands_ask halts r port cs h) routes.now chunks.old self.now chunks.new) }
    {
        let Some(group) = self.group(routes, port) else {
            return Ok(());
        };
        let number = self.mount.number();
        lead_at(workers, number, group, chunks, out)
    }
}
