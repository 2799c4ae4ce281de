//! A live line over a chunk.
ghost use Rattle.std.specs.Prelude.{◌≡◌, ◌<◌, IfOk, OnErr, Some, length, slice_get};
ghost use Rattle.pf_chunk.specs.Views.{ChunkIs, ChunkIsReady};
ghost use Rattle.pf_live_session.specs.Steps.{HasHeld, ChunkHasNotLived, BecameAt};

use crate::session::{Lived, live};
use pf_base::NoMemory;
use pf_chunk::ChunkGroup;
use pf_disk::Disk;
use pf_group_copy::{Gate, Workers};
use pf_live_line::pf_live_seats::LinePlan;
use std::sync::Wait;
use std::thread::Threads;

/// One live line over a chunk, whose group its threads take turns with until it has ended. Then what is free is applied, and a line for each
/// read of a line that was answered is put at the end of `out`, by the reads' numbers. The gate is called round each step of a thread,
/// outside of any turn.
///
/// After `NoMemory` (1) the group stands after its last whole step, with no job in hand: a beginning of what would have come of what the
/// threads did.
pub fn live_in<R: Threads + Wait + Sync, D: Disk + Drop + Send, G: Gate + Sync>(
    workers: &Workers<'_, R, G>,
    chunk: ChunkGroup<D>,
    plan: LinePlan,
    out: &mut Vec<u8>,
) -> (ChunkGroup<D>, Result<Lived, NoMemory>)
    requires ready { ChunkIsReady chunk }
    ensures went { IfOk result.1 (λ told. HasHeld plan chunk out.old.items told out.new.items result.0) }
    ensures err { OnErr result.1 (ChunkHasNotLived plan chunk result.0) }
{
    let (group, lent) = chunk.lend();
    let (group, told) = live(workers, group, plan);
    let mut chunk = lent.back(group);
    // That the history is legal is asked of the proof alone.
    chunk.laws();
    let Ok(lived) = told else {
        return (chunk, Err(NoMemory));
    };
    if chunk.tell(out).is_err() {
        return (chunk, Err(NoMemory));
    }
    (chunk, Ok(lived))
}

/// A line of threads over the group of this number of some. It is out of the list meanwhile.
pub fn live_at<R: Threads + Wait + Sync, D: Disk + Drop + Send, G: Gate + Sync>(
    workers: &Workers<'_, R, G>,
    chunks: &mut Vec<ChunkGroup<D>>,
    at: u8,
    plan: LinePlan,
    out: &mut Vec<u8>,
) -> Result<Lived, NoMemory>
    requires at { at < length chunks.old.items }
    requires ready { (c : ChunkIs) → slice_get chunks.old.items at ≡ Some c → ChunkIsReady c }
    ensures went { IfOk result (λ told. BecameAt at chunks.old.items chunks.new.items (λ was is. HasHeld plan was out.old.items told out.new.items is)) }
    ensures err { OnErr result (BecameAt at chunks.old.items chunks.new.items (ChunkHasNotLived plan)) }
{
    let chunk = chunks.remove(at as usize);
    let (chunk, told) = live_in(workers, chunk, plan, out);
    // There is room for it: it was there.
    let _ = chunks.insert(at as usize, chunk);
    told
}
