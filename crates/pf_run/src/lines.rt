//! The lines of a script, run over a world on disks.
ghost use Rattle.std.specs.Prelude.{◌≡◌, ◌≤◌, ◌<◌, ◌+◌, ◌*◌, ◌^◌, ℕ, List, [], ◌∷◌, IfErr, IfOk, length};
ghost use Rattle.pf_io.specs.Causes.{Rose};
ghost use Rattle.pf_world.specs.Headline.{IsSoundWorld, RunsTo};
ghost use Rattle.pf_world.specs.Making.{HasMadeMore};
ghost use Rattle.pf_world.specs.Steps.{MayRunAll};
ghost use Rattle.pf_world.specs.Views.{IsWorld, named_in};
ghost use Rattle.pf_run.specs.Placed.{MakesVolume, ScriptIsWhole};
ghost use Rattle.pf_run.specs.Running.{HasGoneOn, HasNotOpened, HasOpened, HasRunLines};

use pf_disk::Disk;
use pf_group_copy::{Gate, Workers};
use pf_io::Sink;
use pf_report::put_answer;
use pf_run_lines::{Status, write_all};
use pf_script::Command;
use pf_world::{Line, World};
use std::alloc::Global;
use std::mem;
use std::sync::Wait;
use std::thread::Threads;

/// Makes the volume of a script's first line, and gives the text of that line. Where there is no memory for it, the disks come back.
fn open<D: Disk + Drop>(
    alloc: Global,
    line: &Line,
    disks: Vec<D>,
) -> Result<(World<D>, Vec<u8>), Vec<D>>
    requires volume { (chunks : ℕ) × MakesVolume chunks line.now.command }
    requires disks { 48 ≤ length disks.items }
    ensures opened { IfOk result (λ opened. HasOpened D.faults line.now opened.1.items disks.items opened.0) }
    ensures back { IfErr result (λ back. HasNotOpened D.seen D.may_leave D.faults D.moment D.left_since D.tells D.tells_moments line.now disks.items
        back.items) }
{
    let Command::Volume {
        chunks,
        sectors,
        names,
        format,
    } = line.command
    else {
        unreachable!()
    };
    match World::new(alloc, chunks, sectors, names, format, disks) {
        Ok((world, answer)) => {
            let mut text = Vec::new(alloc);
            if put_answer(&mut text, line.number, &answer).is_err() {
                return Err(world.close());
            }
            Ok((world, text))
        }
        Err((disks, _)) => Err(disks),
    }
}

/// Writes the text of the volume's line, runs the lines behind it one after another, and writes the text of each.
fn go_on<K: Sink, D: Disk + Drop + Send, R: Threads + Wait + Sync, G: Gate + Sync>(
    workers: &Workers<'_, R, G>,
    volume: &Line,
    opened: &[u8],
    lines: &[Line],
    world: &mut World<D>,
    sink: &mut K,
) -> Status
    requires world { IsWorld world.old.world }
    requires run { RunsTo (volume.now ∷ []) opened.now world.old.world }
    requires sound { IsSoundWorld world.old.world }
    requires lines { MayRunAll (named_in world.old.world) lines.now }
    requires few { world.old.world.fleet.calls + length lines.now < 2 ^ 32 }
    requires moves { world.old.world.moves + length lines.now < 2 ^ 32 }
    requires disks { 48 ≤ 6 * length world.old.world.chunks + length world.old.spare }
    ensures gone { HasGoneOn result volume.now lines.now (K.taken sink.old) (K.taken sink.new) (Rose (K.faults sink.old) (K.faults sink.new)) world.old.world
        world.new.world }
    ensures made { HasMadeMore D.faults world.old world.new }
{
    if write_all(sink, opened).is_err() {
        return Status::WriteFault;
    }
    let mut text = Vec::new(workers.alloc);
    for line in lines {
        if world
            .line(workers, line.number, &line.command, &mut text)
            .is_err()
        {
            return Status::NoMemory;
        }
        if write_all(sink, &text).is_err() {
            return Status::WriteFault;
        }
        text.clear();
    }
    Status::Ok
}

/// Runs the lines of a script over the disks, and writes the text of each line after it has run. With `Ok` come the counts of the slots
/// that groups 0 and 1 acknowledged.
pub fn run_lines<K: Sink, D: Disk + Drop + Send, R: Threads + Wait + Sync, G: Gate + Sync>(
    workers: &Workers<'_, R, G>,
    lines: &[Line],
    sink: &mut K,
    disks: &mut Vec<D>,
) -> (Status, (usize, usize))
    requires lines { ScriptIsWhole lines.now }
    requires disks { 48 ≤ length disks.old.items }
    ensures { HasRunLines D.seen D.may_leave D.faults D.moment D.left_since D.tells D.tells_moments result.0 result.1 lines.now (K.taken sink.old)
        (K.taken sink.new) (Rose (K.faults sink.old) (K.faults sink.new)) disks.old.items disks.new.items }
{
    let [volume, rest @ ..] = lines else {
        unreachable!()
    };
    let alloc = workers.alloc;
    match open(alloc, volume, mem::replace(disks, Vec::new(alloc))) {
        Ok((mut world, text)) => {
            let status = go_on(workers, volume, &text, rest, &mut world, sink);
            let acked = (world.acked_count(0), world.acked_count(1));
            *disks = world.close();
            (status, acked)
        }
        Err(back) => {
            *disks = back;
            (Status::NoMemory, (0, 0))
        }
    }
}
