//! The line of a generated script.
ghost use Rattle.std.specs.Prelude.{◌≡◌, ◌++◌, OnErr, OnOk};
ghost use Rattle.pf_text.specs.Kept.{KeepsText};
ghost use Rattle.pf_report.specs.Generated.{gen_line};

use crate::lines::{put_all_spaced, settled};
use pf_base::NoMemory;
use pf_text::{put_decimal, put_text};

fn write_gen(out: &mut Vec<u8>, n: u64, lines: u32, acked: [u64; 2]) -> Result<(), NoMemory>
    ensures ok { OnOk result (out.new.items ≡ out.old.items ++ gen_line n lines acked) }
    ensures kept { KeepsText out.old.items out.new.items }
{
    put_text(out, b"gen ")?;
    put_decimal(out, n)?;
    put_text(out, b" lines ")?;
    put_decimal(out, u64::from(lines))?;
    put_text(out, b" acked")?;
    put_all_spaced(out, &acked)?;
    put_text(out, b"\n")
}

/// Puts the one line that tells of a generated script, without a number before it: `gen` with the script's number `n`, `lines` with how
/// many it has, and `acked` with how many slots each of its two groups acknowledged.
pub fn put_gen(out: &mut Vec<u8>, n: u64, lines: u32, acked: [u64; 2]) -> Result<(), NoMemory>
    ensures ok { OnOk result (out.new.items ≡ out.old.items ++ gen_line n lines acked) }
    ensures err { OnErr result (out.new.items ≡ out.old.items) }
{
    let before = out.len();
    let put = write_gen(out, n, lines, acked);
    settled(out, before, put)
}
