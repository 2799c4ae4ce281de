//! Runs of which no lines were read.
ghost use Rattle.std.specs.Prelude.{◌≡◌, IfOk};
ghost use Rattle.pf_io.specs.Causes.{Rose};
ghost use Rattle.pf_run_lines.specs.Refusing.{EndsAtStop, LineRefuses, fault_text};

use crate::ends::write_all;
use crate::scan::Stop;
use crate::status::Status;
use pf_base::NoMemory;
use pf_io::Sink;
use pf_script::LineFault;
use pf_text::{put_decimal, put_text};
use std::alloc::Global;

/// The text of a refused line.
fn fault_text(alloc: Global, line: u32, fault: LineFault) -> Result<Vec<u8>, NoMemory>
    ensures { IfOk result (λ text. text.items ≡ fault_text line fault) }
{
    let mut out = Vec::new(alloc);
    put_text(&mut out, b"fault ")?;
    put_decimal(&mut out, u64::from(line))?;
    put_text(&mut out, b" ")?;
    put_decimal(&mut out, u64::from(fault.number()))?;
    put_text(&mut out, b"\n")?;
    Ok(out)
}

/// Tells of a refused line.
fn refuse<K: Sink>(alloc: Global, line: u32, fault: LineFault, sink: &mut K) -> Status
    ensures { LineRefuses result (fault_text line fault) (K.taken sink.old) (K.taken sink.new) (Rose (K.faults sink.old) (K.faults sink.new)) }
{
    let Ok(text) = fault_text(alloc, line, fault) else {
        return Status::NoMemory;
    };
    if write_all(sink, &text).is_err() {
        return Status::WriteFault;
    }
    Status::Script
}

/// Ends a run whose lines were not read whole, or of which one is refused.
pub fn end_at<K: Sink>(alloc: Global, stop: Stop, sink: &mut K) -> Status
    ensures { EndsAtStop result stop (K.taken sink.old) (K.taken sink.new) (Rose (K.faults sink.old) (K.faults sink.new)) }
{
    match stop {
        Stop::NoMemory => Status::NoMemory,
        Stop::Failed => Status::ReadFault,
        Stop::Refused { line, fault } => refuse(alloc, line, fault, sink),
    }
}
