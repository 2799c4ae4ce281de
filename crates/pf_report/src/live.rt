//! The line of a live line.
ghost use Rattle.std.specs.Prelude.{◌≡◌, ◌++◌, OnErr, OnOk};
ghost use Rattle.pf_text.specs.Kept.{KeepsText};
ghost use Rattle.pf_report.specs.Live.{live_end_text, live_text};
ghost use Rattle.pf_report.specs.Texts.{report_line};

use crate::lines::{put_all_spaced, put_number, settled};
use pf_base::{LiveEnd, NoMemory};
use pf_text::{put_decimal, put_text};

/// The words of an end.
fn words_of(end: LiveEnd) -> &'static [u8]
    ensures { result.now ≡ live_end_text end }
{
    match end {
        LiveEnd::Done => b"done",
        LiveEnd::Stalled => b"stalled",
        LiveEnd::TurnsSpent => b"turns spent",
    }
}

/// Puts what a live line came to.
fn put_end(out: &mut Vec<u8>, acked: u64, applied: [u64; 3], end: LiveEnd) -> Result<(), NoMemory>
    ensures ok { OnOk result (out.new.items ≡ out.old.items ++ live_text acked applied end) }
    ensures kept { KeepsText out.old.items out.new.items }
{
    put_text(out, b"live ")?;
    put_decimal(out, acked)?;
    put_text(out, b" acked")?;
    put_all_spaced(out, &applied)?;
    put_text(out, b" applied ")?;
    put_text(out, words_of(end))
}

fn write_live(
    out: &mut Vec<u8>,
    line: u32,
    acked: u64,
    applied: [u64; 3],
    end: LiveEnd,
) -> Result<(), NoMemory>
    ensures ok { OnOk result (out.new.items ≡ out.old.items ++ report_line line (live_text acked applied end)) }
    ensures kept { KeepsText out.old.items out.new.items }
{
    put_number(out, line)?;
    put_end(out, acked, applied, end)?;
    put_text(out, b"\n")
}

/// Puts the line of a live line: the line's number, `live`, how many slots were acknowledged in it, how many were applied on servers 0, 1 and
/// 2, and how it ended.
pub fn put_live(
    out: &mut Vec<u8>,
    line: u32,
    acked: u64,
    applied: [u64; 3],
    end: LiveEnd,
) -> Result<(), NoMemory>
    ensures ok { OnOk result (out.new.items ≡ out.old.items ++ report_line line (live_text acked applied end)) }
    ensures err { OnErr result (out.new.items ≡ out.old.items) }
{
    let before = out.len();
    let put = write_live(out, line, acked, applied, end);
    settled(out, before, put)
}
