//! A port of a mount into a group, and the lines of what ends.
ghost use Rattle.std.specs.Prelude.{◌≡◌, ◌<◌, ◌++◌, IfOk, IfSome, OnErr, OnOk, Some, slice_get};
ghost use Rattle.pf_asks.specs.Ports.{PortIs};
ghost use Rattle.pf_base.specs.Asks.{Answers as AnswersAsk};
ghost use Rattle.pf_base.specs.declared.asks.Ask.{Ask as AskIs};
ghost use Rattle.pf_world_moments.specs.pf_chunk.specs.Runs.{most_ports};
ghost use Rattle.pf_world_moments.specs.pf_chunk.specs.Views.{ChunkIs};
ghost use Rattle.pf_world_moments.specs.Parts.{PortIsPending};
ghost use Rattle.pf_world_moments.specs.Steps.{AreReady};
ghost use Rattle.pf_mount_host.specs.Parts.{HasHeardAt, HasLedAt, HasNotLedAt, next_text};

use pf_base::{CallName, NoMemory, Reply};
use pf_disk::Disk;
use pf_group_copy::{Gate, Workers};
use pf_mount::MountNext;
use pf_report::put_ready;
use pf_world_moments::pf_chunk::ChunkGroup;
use pf_world_moments::put_end;
use std::alloc::Global;
use std::thread::Threads;

/// The reply to the pending ask of a mount's port into a group, if its last submission was answered.
pub(crate) fn hear_at<D: Disk + Drop>(
    alloc: Global,
    mount: u8,
    group: u8,
    chunks: &mut [ChunkGroup<D>],
) -> Result<Option<Reply>, NoMemory>
    requires mount { mount < most_ports }
    requires ready { AreReady chunks.old }
    requires pending { PortIsPending mount group chunks.old }
    ensures went { IfOk result (λ reply. HasHeardAt mount group chunks.old reply chunks.new) }
    ensures answers { IfOk result (λ reply. IfSome reply (λ r. (c : ChunkIs) (port : PortIs) (ask : AskIs) → slice_get chunks.old group ≡ Some c
        → slice_get c.ports mount ≡ Some port → port.ask ≡ Some ask → AnswersAsk ask r)) }
    ensures err { OnErr result (chunks.new ≡ chunks.old) }
{
    let chunk = &mut chunks[group as usize];
    chunk.hear(alloc, mount)
}

/// The pending ask of a mount's port into a group goes to the leader of the greatest term, where the port's rule says so.
pub(crate) fn lead_at<D: Disk + Drop, R: Threads + Sync, G: Gate + Sync>(
    workers: &Workers<'_, R, G>,
    mount: u8,
    group: u8,
    chunks: &mut [ChunkGroup<D>],
    out: &mut Vec<u8>,
) -> Result<(), NoMemory>
    requires mount { mount < most_ports }
    requires ready { AreReady chunks.old }
    requires pending { PortIsPending mount group chunks.old }
    ensures went { OnOk result (HasLedAt mount group chunks.old out.old.items out.new.items chunks.new) }
    ensures err { OnErr result (HasNotLedAt mount group chunks.old chunks.new) }
{
    let chunk = &mut chunks[group as usize];
    chunk.lead(workers, mount, out)
}

/// Puts the event line of what ended, if something did.
pub(crate) fn put_next(
    out: &mut Vec<u8>,
    mount: u8,
    name: Option<CallName>,
    next: Option<MountNext>,
) -> Result<(), NoMemory>
    ensures ok { OnOk result (out.new.items ≡ out.old.items ++ next_text mount name next) }
    ensures err { OnErr result (out.new.items ≡ out.old.items) }
{
    match next {
        None => Ok(()),
        Some(MountNext::Failed) => Ok(()),
        Some(MountNext::Ready) => put_ready(out, mount),
        Some(MountNext::Done(answer)) => put_end(out, mount, name, answer),
    }
}
