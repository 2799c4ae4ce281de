//! Lines that show the bytes of sectors, by their runs of equal bytes.
ghost use Rattle.std.specs.Prelude.{◌≡◌, ◌++◌, IfNone, IfSome, OnErr, OnOk};
ghost use Rattle.pf_text.specs.Kept.{KeepsText};
ghost use Rattle.pf_text.specs.Runs.{runs_text};
ghost use Rattle.pf_report.specs.Texts.{joined_bytes, event_line, report_line, no_snapshot_text, read_text, sectors_text, snapshot_text};

use crate::lines::{put_number, put_spaced, settled};
use pf_base::{Data, NoMemory, Slot};
use pf_server_tables::SectorTable;
use pf_text::{put_decimal, put_runs, put_runs_and_zeros, put_text};

/// Puts the runs of equal bytes over all sectors, of which none is copied, and of those that were never written none is made.
fn put_all_runs(out: &mut Vec<u8>, sectors: &SectorTable) -> Result<(), NoMemory>
    ensures ok { OnOk result (out.new.items ≡ out.old.items ++ runs_text (joined_bytes sectors.now)) }
    ensures kept { KeepsText out.old.items out.new.items }
{
    let written = sectors.written();
    let zeros = 512 * (sectors.len() - written.len());
    put_runs_and_zeros(out, written.as_flattened(), zeros)
}

fn write_sectors(out: &mut Vec<u8>, line: u32, sectors: &SectorTable) -> Result<(), NoMemory>
    ensures ok { OnOk result (out.new.items ≡ out.old.items ++ report_line line (sectors_text sectors.now)) }
    ensures kept { KeepsText out.old.items out.new.items }
{
    put_number(out, line)?;
    put_text(out, b"sectors ")?;
    put_all_runs(out, sectors)?;
    put_text(out, b"\n")
}

/// Puts the bytes of a chunk: the line's number, `sectors`, and the runs of equal bytes over all its sectors.
pub fn put_sectors(out: &mut Vec<u8>, line: u32, sectors: &SectorTable) -> Result<(), NoMemory>
    ensures ok { OnOk result (out.new.items ≡ out.old.items ++ report_line line (sectors_text sectors.now)) }
    ensures err { OnErr result (out.new.items ≡ out.old.items) }
{
    let before = out.len();
    let put = write_sectors(out, line, sectors);
    settled(out, before, put)
}

fn write_snapshot(
    out: &mut Vec<u8>,
    line: u32,
    slot: Slot,
    sectors: &SectorTable,
) -> Result<(), NoMemory>
    ensures ok { OnOk result (out.new.items ≡ out.old.items ++ report_line line (snapshot_text slot sectors.now)) }
    ensures kept { KeepsText out.old.items out.new.items }
{
    put_number(out, line)?;
    put_text(out, b"mark ")?;
    put_decimal(out, slot)?;
    put_text(out, b" ")?;
    put_all_runs(out, sectors)?;
    put_text(out, b"\n")
}

fn write_no_snapshot(out: &mut Vec<u8>, line: u32, slot: Slot) -> Result<(), NoMemory>
    ensures ok { OnOk result (out.new.items ≡ out.old.items ++ report_line line (no_snapshot_text slot)) }
    ensures kept { KeepsText out.old.items out.new.items }
{
    put_number(out, line)?;
    put_text(out, b"mark ")?;
    put_decimal(out, slot)?;
    put_text(out, b" none\n")
}

fn write_mark(
    out: &mut Vec<u8>,
    line: u32,
    slot: Slot,
    sectors: Option<&SectorTable>,
) -> Result<(), NoMemory>
    ensures none { IfNone sectors.entry (OnOk result (out.new.items ≡ out.old.items ++ report_line line (no_snapshot_text slot))) }
    ensures some { IfSome sectors.entry (λ shown. OnOk result (out.new.items ≡ out.old.items ++ report_line line (snapshot_text slot shown.now))) }
    ensures kept { KeepsText out.old.items out.new.items }
{
    match sectors {
        Some(shown) => write_snapshot(out, line, slot, shown),
        None => write_no_snapshot(out, line, slot),
    }
}

/// Puts the snapshot of a slot: the line's number, `mark`, the slot, and the runs of equal bytes over all sectors of the snapshot,
/// or `none` where none is kept.
pub fn put_mark(
    out: &mut Vec<u8>,
    line: u32,
    slot: Slot,
    sectors: Option<&SectorTable>,
) -> Result<(), NoMemory>
    ensures none { IfNone sectors.entry (OnOk result (out.new.items ≡ out.old.items ++ report_line line (no_snapshot_text slot))) }
    ensures kept { IfSome sectors.entry (λ kept. OnOk result (out.new.items ≡ out.old.items ++ report_line line (snapshot_text slot kept.now))) }
    ensures err { OnErr result (out.new.items ≡ out.old.items) }
{
    let before = out.len();
    let put = write_mark(out, line, slot, sectors);
    settled(out, before, put)
}

fn write_read(out: &mut Vec<u8>, group: u8, number: u64, bytes: &Data) -> Result<(), NoMemory>
    ensures ok { OnOk result (out.new.items ≡ out.old.items ++ event_line (read_text group number bytes.now)) }
    ensures kept { KeepsText out.old.items out.new.items }
{
    put_text(out, b"- read ")?;
    put_decimal(out, u64::from(group))?;
    put_spaced(out, number)?;
    put_text(out, b" ")?;
    put_runs(out, bytes.as_slice().as_flattened())?;
    put_text(out, b"\n")
}

/// Puts the line of an event, that a read was answered: `- read`, the group, the read's number, and the runs of equal bytes.
pub fn put_read(out: &mut Vec<u8>, group: u8, number: u64, bytes: &Data) -> Result<(), NoMemory>
    ensures ok { OnOk result (out.new.items ≡ out.old.items ++ event_line (read_text group number bytes.now)) }
    ensures err { OnErr result (out.new.items ≡ out.old.items) }
{
    let before = out.len();
    let put = write_read(out, group, number, bytes);
    settled(out, before, put)
}
