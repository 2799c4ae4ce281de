//! The text of bytes that end in zeros, of which not all are at hand.
ghost use Rattle.std.specs.Prelude.{◌≡◌, ◌+◌, ◌<◌, ◌++◌, ◌^◌, length, replicate, IfOk, OnErr, OnOk};
ghost use Rattle.pf_text.specs.Runs.{runs_text, stretch_text};
ghost use Rattle.pf_text.specs.Zeros.{EndsApart, IsBeforeZeros};

use crate::put::{put_decimal, put_runs, put_text};
use pf_base::NoMemory;
use std::alloc::Global;

/// Where the zeros begin with which the bytes end.
fn before_zeros(bytes: &[u8]) -> usize
    ensures { IsBeforeZeros bytes.now result }
{
    let mut end = bytes.len();
    while end > 0 && bytes[end - 1] == 0 {
        end -= 1;
    }
    end
}

/// Puts a run of so many zeros.
fn put_zeros(out: &mut Vec<u8>, zeros: usize) -> Result<(), NoMemory>
    ensures { OnOk result (out.new.items ≡ out.old.items ++ stretch_text (record { byte = 0; count = zeros })) }
{
    put_text(out, b"00*")?;
    put_decimal(out, zeros as u64)
}

/// The text of bytes, of which the last is no zero, and of some zeros behind them.
fn text_of_both(alloc: Global, bytes: &[u8], zeros: usize) -> Result<Vec<u8>, NoMemory>
    requires apart { EndsApart bytes.now }
    requires some { 0 < zeros }
    ensures { IfOk result (λ text. text.items ≡ runs_text (bytes.now ++ replicate zeros 0)) }
{
    let mut text = Vec::new(alloc);
    if !bytes.is_empty() {
        put_runs(&mut text, bytes)?;
        put_text(&mut text, b" ")?;
    }
    put_zeros(&mut text, zeros)?;
    Ok(text)
}

/// Puts the maximal runs of equal bytes, as `put_runs` does, over the bytes and so many zeros behind them, which are not made.
pub fn put_runs_and_zeros(out: &mut Vec<u8>, bytes: &[u8], zeros: usize) -> Result<(), NoMemory>
    requires { length bytes.now + zeros < 2 ^ 64 }
    ensures ok { OnOk result (out.new.items ≡ out.old.items ++ runs_text (bytes.now ++ replicate zeros 0)) }
    ensures err { OnErr result (out.new.items ≡ out.old.items) }
{
    let end = before_zeros(bytes);
    let zeros = zeros + (bytes.len() - end);
    if zeros == 0 {
        return put_runs(out, bytes);
    }
    let alloc = *out.allocator();
    let text = text_of_both(alloc, &bytes[..end], zeros)?;
    put_text(out, &text)
}
