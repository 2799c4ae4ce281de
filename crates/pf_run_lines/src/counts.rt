//! Two counts as text.
ghost use Rattle.std.specs.Prelude.{◌≡◌, ◌++◌, OnOk};
ghost use Rattle.pf_run_lines.specs.Counts.{counts_text};

use pf_base::NoMemory;
use pf_text::{put_decimal, put_text};

/// Puts two counts, and a line feed.
pub(crate) fn put_counts(out: &mut Vec<u8>, counts: (usize, usize)) -> Result<(), NoMemory>
    ensures { OnOk result (out.new.items ≡ out.old.items ++ counts_text counts) }
{
    put_decimal(out, counts.0 as u64)?;
    put_text(out, b" ")?;
    put_decimal(out, counts.1 as u64)?;
    put_text(out, b"\n")
}
