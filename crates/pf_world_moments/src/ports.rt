//! Steps of ports, and lines of calls that ended.
ghost use Rattle.std.specs.Prelude.{◌≡◌, ◌++◌, ◌<◌, IfOk, IfSome, OnErr, OnOk, Some, slice_get};
ghost use Rattle.pf_base.specs.declared.asks.Ask.{Ask as AskIs};
ghost use Rattle.pf_asks.specs.Ports.{PortIs};
ghost use Rattle.pf_base.specs.Asks.{Answers as AnswersAsk};
ghost use Rattle.pf_chunk.specs.Runs.{most_ports};
ghost use Rattle.pf_chunk.specs.Views.{ChunkIs};
ghost use Rattle.pf_world_moments.specs.Parts.{HasDrove, HasNotDrove, PortIsPending, call_end_text};
ghost use Rattle.pf_world_moments.specs.Steps.{AreReady};

use pf_base::{CallName, NoMemory, Reply};
use pf_chunk::ChunkGroup;
use pf_disk::Disk;
use pf_file_calls::CallAnswer;
use pf_group_copy::{Gate, Workers};
use pf_report::put_call;
use std::thread::Threads;

/// A port into a group takes a step: of a mount, or of a mover.
pub fn drive_at<D: Disk + Drop, R: Threads + Sync, G: Gate + Sync>(
    workers: &Workers<'_, R, G>,
    mount: u8,
    group: u8,
    chunks: &mut [ChunkGroup<D>],
    out: &mut Vec<u8>,
) -> Result<Option<Reply>, NoMemory>
    requires mount { mount < most_ports }
    requires ready { AreReady chunks.old }
    requires pending { PortIsPending mount group chunks.old }
    ensures went { IfOk result (λ reply. HasDrove mount group chunks.old out.old.items reply out.new.items chunks.new) }
    ensures answers { IfOk result (λ reply. IfSome reply (λ r. (c : ChunkIs) (port : PortIs) (ask : AskIs) → slice_get chunks.old group ≡ Some c
        → slice_get c.ports mount ≡ Some port → port.ask ≡ Some ask → AnswersAsk ask r)) }
    ensures err { OnErr result (HasNotDrove mount group chunks.old chunks.new) }
{
    let chunk = &mut chunks[group as usize];
    chunk.drive(workers, mount, out)
}

/// Puts the event line of a call that ended at the end of `out`. A mount whose superblock is another's ends without one. The one error is
/// `NoMemory` (1), which leaves `out` as it was.
pub fn put_end(
    out: &mut Vec<u8>,
    mount: u8,
    name: Option<CallName>,
    answer: CallAnswer,
) -> Result<(), NoMemory>
    ensures ok { OnOk result (out.new.items ≡ out.old.items ++ call_end_text mount name answer) }
    ensures err { OnErr result (out.new.items ≡ out.old.items) }
{
    match name {
        Some(name) => put_call(out, mount, name, &answer),
        None => Ok(()),
    }
}
