//! Lines that tell of a server's records.
ghost use Rattle.std.specs.Prelude.{◌≡◌, ◌++◌, OnErr, OnOk};
ghost use Rattle.pf_text.specs.Kept.{KeepsText};
ghost use Rattle.pf_report.specs.Records.{record_line, record_text};

use crate::lines::{put_spaced, settled};
use crate::logs::put_slot;
use pf_base::NoMemory;
use pf_entry::Record;
use pf_text::put_text;

/// Puts what a record tells.
fn put_told(out: &mut Vec<u8>, written: &Record) -> Result<(), NoMemory>
    ensures ok { OnOk result (out.new.items ≡ out.old.items ++ record_text written.now) }
    ensures kept { KeepsText out.old.items out.new.items }
{
    match written {
        Record::Image {
            generation,
            term,
            vote,
            applied: _,
            sectors: _,
        } => {
            put_text(out, b"image")?;
            put_spaced(out, *generation)?;
            put_spaced(out, *term)?;
            put_spaced(out, vote.base)
        }
        Record::Term(term) => {
            put_text(out, b"term")?;
            put_spaced(out, *term)
        }
        Record::Entry(entry) => {
            put_text(out, b"entry ")?;
            put_slot(out, entry.slot, entry.term, &entry.op)
        }
        Record::Merged {
            term,
            first,
            entries,
        } => {
            put_text(out, b"merged")?;
            put_spaced(out, *term)?;
            put_spaced(out, *first)?;
            put_spaced(out, entries.as_slice().len() as u64)
        }
    }
}

fn write_record(out: &mut Vec<u8>, written: &Record) -> Result<(), NoMemory>
    ensures ok { OnOk result (out.new.items ≡ out.old.items ++ record_line written.now) }
    ensures kept { KeepsText out.old.items out.new.items }
{
    put_told(out, written)?;
    put_text(out, b"\n")
}

/// Puts the line of a record, without a number before it: `image` with its generation, its term and its checkpoint; `term` with the
/// term; `entry` with its slot, its term and its op as `s:t:OP`; or `merged` with its term, its first new slot and the count of its
/// entries.
pub fn put_record(out: &mut Vec<u8>, written: &Record) -> Result<(), NoMemory>
    ensures ok { OnOk result (out.new.items ≡ out.old.items ++ record_line written.now) }
    ensures err { OnErr result (out.new.items ≡ out.old.items) }
{
    let before = out.len();
    let put = write_record(out, written);
    settled(out, before, put)
}
