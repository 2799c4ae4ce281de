//! Lines that show a server's log, and what it applied.
ghost use Rattle.std.specs.Prelude.{◌≡◌, ◌++◌, OnErr, OnOk};
ghost use Rattle.std.specs.List.{flat_map};
ghost use Rattle.pf_text.specs.Kept.{KeepsText};
ghost use Rattle.pf_report.specs.Texts.{acked_text, applied_text, slots_held, held_text, line_in, report_line, log_text, op_text, slot_text};

use crate::lines::{put_all_spaced, put_number, put_spaced, settled};
use pf_base::{NoMemory, Slot, Term};
use pf_entry::{Entry, Op};
use pf_holes::{HoleLog, SlotSet};
use pf_text::{put_decimal, put_text};

/// Puts what an op does.
fn put_op(out: &mut Vec<u8>, op: &Op) -> Result<(), NoMemory>
    ensures ok { OnOk result (out.new.items ≡ out.old.items ++ op_text op.now) }
    ensures kept { KeepsText out.old.items out.new.items }
{
    match op {
        Op::Write { range, payload: _ } => {
            put_text(out, b"w")?;
            put_decimal(out, u64::from(range.first()))?;
            put_text(out, b"x")?;
            put_decimal(out, u64::from(range.count()))
        }
        Op::Noop => put_text(out, b"n"),
        Op::Mark => put_text(out, b"m"),
    }
}

/// Puts a slot, its term, and what its op does.
pub(crate) fn put_slot(out: &mut Vec<u8>, slot: Slot, term: Term, op: &Op) -> Result<(), NoMemory>
    ensures ok { OnOk result (out.new.items ≡ out.old.items ++ slot_text slot term op.now) }
    ensures kept { KeepsText out.old.items out.new.items }
{
    put_decimal(out, slot)?;
    put_text(out, b":")?;
    put_decimal(out, term)?;
    put_text(out, b":")?;
    put_op(out, op)
}

/// Puts one held slot of a log.
fn put_held(out: &mut Vec<u8>, log: &HoleLog, entry: &Entry) -> Result<(), NoMemory>
    ensures ok { OnOk result (out.new.items ≡ out.old.items ++ held_text (line_in log.now (entry.now.slot, entry.now))) }
    ensures kept { KeepsText out.old.items out.new.items }
{
    put_text(out, b" ")?;
    put_slot(out, entry.slot, entry.term, &entry.op)?;
    let sign = if log.is_committed(entry.slot) {
        b"+"
    } else {
        b"-"
    };
    put_text(out, sign)
}

/// Puts each slot that a log holds, in ascending order. No entry is copied.
fn put_entries(out: &mut Vec<u8>, log: &HoleLog) -> Result<(), NoMemory>
    ensures ok { OnOk result (out.new.items ≡ out.old.items ++ flat_map held_text (slots_held log.now)) }
    ensures kept { KeepsText out.old.items out.new.items }
{
    let mut after = log.base();
    while let Some(slot) = log.next_after(after) {
        let Some(entry) = log.get(slot) else {
            unreachable!()
        };
        put_held(out, log, entry)?;
        after = slot;
    }
    Ok(())
}

fn write_log(out: &mut Vec<u8>, line: u32, term: Term, log: &HoleLog) -> Result<(), NoMemory>
    ensures ok { OnOk result (out.new.items ≡ out.old.items ++ report_line line (log_text term log.now.base (slots_held log.now))) }
    ensures kept { KeepsText out.old.items out.new.items }
{
    put_number(out, line)?;
    put_text(out, b"log ")?;
    put_decimal(out, term)?;
    put_spaced(out, log.base())?;
    put_entries(out, log)?;
    put_text(out, b"\n")
}

/// Puts a log: the line's number, `log`, the server's term, its checkpoint, which is the log's base, and in ascending order each slot
/// that the log holds, with its term, its op, and `+` where it is committed, else `-`.
pub fn put_log(out: &mut Vec<u8>, line: u32, term: Term, log: &HoleLog) -> Result<(), NoMemory>
    ensures ok { OnOk result (out.new.items ≡ out.old.items ++ report_line line (log_text term log.now.base (slots_held log.now))) }
    ensures err { OnErr result (out.new.items ≡ out.old.items) }
{
    let before = out.len();
    let put = write_log(out, line, term, log);
    settled(out, before, put)
}

fn write_applied(
    out: &mut Vec<u8>,
    line: u32,
    base: Slot,
    applied: &SlotSet,
) -> Result<(), NoMemory>
    ensures ok { OnOk result (out.new.items ≡ out.old.items ++ report_line line (applied_text base applied.now.slots)) }
    ensures kept { KeepsText out.old.items out.new.items }
{
    let alloc = *out.allocator();
    put_number(out, line)?;
    put_text(out, b"applied ")?;
    put_decimal(out, base)?;
    let above = applied.above(alloc, base)?;
    put_all_spaced(out, above.as_slice())?;
    put_text(out, b"\n")
}

/// Puts what a server applied: the line's number, `applied`, the server's checkpoint, and in ascending order each slot above it that
/// is in the set.
pub fn put_applied(
    out: &mut Vec<u8>,
    line: u32,
    base: Slot,
    applied: &SlotSet,
) -> Result<(), NoMemory>
    ensures ok { OnOk result (out.new.items ≡ out.old.items ++ report_line line (applied_text base applied.now.slots)) }
    ensures err { OnErr result (out.new.items ≡ out.old.items) }
{
    let before = out.len();
    let put = write_applied(out, line, base, applied);
    settled(out, before, put)
}

fn write_acked(out: &mut Vec<u8>, line: u32, slots: &[Slot]) -> Result<(), NoMemory>
    ensures ok { OnOk result (out.new.items ≡ out.old.items ++ report_line line (acked_text slots.now)) }
    ensures kept { KeepsText out.old.items out.new.items }
{
    put_number(out, line)?;
    put_text(out, b"acked")?;
    put_all_spaced(out, slots)?;
    put_text(out, b"\n")
}

/// Puts the acknowledged slots: the line's number, `acked`, and the slots in the order of their acknowledgement.
pub fn put_acked(out: &mut Vec<u8>, line: u32, slots: &[Slot]) -> Result<(), NoMemory>
    ensures ok { OnOk result (out.new.items ≡ out.old.items ++ report_line line (acked_text slots.now)) }
    ensures err { OnErr result (out.new.items ≡ out.old.items) }
{
    let before = out.len();
    let put = write_acked(out, line, slots);
    settled(out, before, put)
}
