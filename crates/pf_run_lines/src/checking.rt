//! Lists of transactions, and the verdict on the tables that they make.
ghost use Rattle.std.specs.Prelude.{◌≡◌, IfOk, length};
ghost use Rattle.pf_io.specs.Causes.{Rose};
ghost use Rattle.pf_check.specs.Raw.{empty_tables, made_by};
ghost use Rattle.pf_check.specs.Verdicts.{IsRight};
ghost use Rattle.pf_run_lines.specs.Checking.{HasChecked, IsVerdictLine, verdict_text};
ghost use Rattle.pf_run_lines.specs.Lists.{list_rules};

use crate::counts::put_counts;
use crate::ends::write_all;
use crate::refusal::end_at;
use crate::scan::{LineReader, read_lines};
use crate::status::Status;
use pf_base::NoMemory;
use pf_check::{Tables, Verdict, judge, read_hex};
use pf_io::{Sink, Source};
use pf_script::LineFault;
use pf_text::put_text;
use pf_tree_tables::Txn;
use std::alloc::Global;
use std::marker::Model;

/// Reads the lines of a list of transactions: each says what it says whatever stands before it.
#[derive(Drop)]
struct ListReader;

impl Model for ListReader {
    ghost Value = { Unit {0} };

    ghost view = { λ r. tt };
}

impl LineReader for ListReader {
    type Item = Txn;

    ghost rules = { list_rules };

    fn read(&mut self, alloc: Global, _number: u32, line: &[u8]) -> Result<Option<Txn>, LineFault> {
        let digits = match line {
            [front @ .., b'\r'] => front,
            _ => line,
        };
        if digits.is_empty() {
            return Ok(None);
        }
        match read_hex(alloc, digits) {
            Ok(Some(txn)) => Ok(Some(txn)),
            Ok(None) => Err(LineFault::BadWord),
            Err(NoMemory) => Err(LineFault::NoMemory),
        }
    }

    fn may_end(&self) -> Result<(), LineFault> {
        Ok(())
    }
}

/// The verdict on the tables that transactions make, in their order, of the empty ones.
fn verdict_on(alloc: Global, txns: &[Txn]) -> Result<Verdict, NoMemory>
    ensures { IfOk result (IsRight (made_by empty_tables txns.now)) }
{
    let mut tables = Tables::new(alloc)?;
    for txn in txns {
        tables.put(alloc, txn)?;
    }
    judge(alloc, &tables)
}

/// The line of a verdict on so many transactions.
fn verdict_text(alloc: Global, verdict: Verdict, count: usize) -> Result<Vec<u8>, NoMemory>
    ensures { IfOk result (λ text. text.items ≡ verdict_text verdict count) }
{
    let mut out = Vec::new(alloc);
    match verdict {
        Verdict::Clean(paths) => {
            put_text(&mut out, b"clean ")?;
            put_counts(&mut out, (paths as usize, count))?;
        }
        Verdict::Broken(kind, number) => {
            put_text(&mut out, b"broken ")?;
            put_counts(&mut out, (kind as usize, number as usize))?;
        }
    }
    Ok(out)
}

/// The line that is told of a list.
fn verdict_line(alloc: Global, txns: &[Txn]) -> Result<Vec<u8>, NoMemory>
    ensures { IfOk result (λ line. IsVerdictLine txns.now line.items) }
{
    let verdict = verdict_on(alloc, txns)?;
    verdict_text(alloc, verdict, txns.len())
}

/// Reads a list of transactions, and writes the line of the verdict on the tables that they make.
pub fn check<S: Source, K: Sink>(alloc: Global, source: &mut S, sink: &mut K) -> Status
    ensures { HasChecked result (S.left source.old) (S.left source.new) (Rose (S.faults source.old) (S.faults source.new))
        (K.taken sink.old) (K.taken sink.new) (Rose (K.faults sink.old) (K.faults sink.new)) }
{
    let txns = match read_lines(alloc, source, ListReader) {
        Ok(txns) => txns,
        Err(stop) => return end_at(alloc, stop, sink),
    };
    let Ok(line) = verdict_line(alloc, &txns) else {
        return Status::NoMemory;
    };
    if write_all(sink, &line).is_err() {
        return Status::WriteFault;
    }
    Status::Ok
}
