//! The run of a generated script.
ghost use Rattle.std.specs.Prelude.{◌≡◌, ◌≤◌, IfOk, length};
ghost use Rattle.pf_io.specs.Causes.{Rose};
ghost use Rattle.pf_run.specs.Reports.{sum_text};
ghost use Rattle.pf_run.specs.Generating.{HasGenerated};

use crate::lines::run_lines;
use crate::script::read_script;
use pf_base::NoMemory;
use pf_disk::Disk;
use pf_gen::script;
use pf_group_copy::{Gate, Workers};
use pf_io::{Sink, SureSource};
use pf_report::put_gen;
use pf_run_lines::{Nowhere, Status, write_all};
use std::alloc::Global;
use std::sync::Wait;
use std::thread::Threads;

/// The line that tells of a generated script of 2,004 lines, by how many slots each of its two groups acknowledged.
fn sum_text(alloc: Global, number: u64, acked: (usize, usize)) -> Result<Vec<u8>, NoMemory>
    ensures { IfOk result (λ text. text.items ≡ sum_text number acked) }
{
    let mut out = Vec::new(alloc);
    put_gen(&mut out, number, 2004, [acked.0 as u64, acked.1 as u64])?;
    Ok(out)
}

/// Runs the script that a number generates over the disks, and writes its one line when all its lines have run.
pub fn generate<K: Sink, D: Disk + Drop + Send, R: Threads + Wait + Sync, G: Gate + Sync>(
    workers: &Workers<'_, R, G>,
    number: u64,
    sink: &mut K,
    disks: &mut Vec<D>,
) -> Status
    requires disks { 48 ≤ length disks.old.items }
    ensures { HasGenerated D.seen D.may_leave D.faults D.moment D.left_since D.tells D.tells_moments result number (K.taken sink.old) (K.taken sink.new)
        (Rose (K.faults sink.old) (K.faults sink.new)) disks.old.items disks.new.items }
{
    let alloc = workers.alloc;
    let Ok(text) = script(alloc, number) else {
        return Status::NoMemory;
    };
    // A generated script is accepted (proofs/Drawn): only want of memory keeps it from being read.
    let Ok(lines) = read_script(alloc, &mut SureSource::new(text)) else {
        return Status::NoMemory;
    };
    let (status, acked) = run_lines(workers, &lines, &mut Nowhere, disks);
    let Status::Ok = status else {
        return Status::NoMemory;
    };
    let Ok(line) = sum_text(alloc, number, acked) else {
        return Status::NoMemory;
    };
    if write_all(sink, &line).is_err() {
        return Status::WriteFault;
    }
    Status::Ok
}
