//! Text that is put at the end of what is written.
//!
//! The vector keeps its allocator, so these calls take none. `NoMemory` leaves its bytes unchanged.
ghost use Rattle.std.specs.Prelude.{◌≡◌, ℕ, ◌+◌, ◌<◌, ◌≤◌, ◌==◌, ◌++◌, drop, length, slice_index, IsTrue, OnOk, OnErr};
ghost use Rattle.std.specs.Char.{digit_char};
ghost use Rattle.std.specs.Fmt.{decimal};
ghost use Rattle.std.specs.List.{prefix_len};
ghost use Rattle.pf_text.specs.Kept.{KeepsText};
ghost use Rattle.pf_text.specs.Runs.{stretch_text, joined_text, runs_of, runs_text};

use itoa::Buffer;
use pf_base::NoMemory;

/// Puts bytes as they are.
pub fn put_text(out: &mut Vec<u8>, text: &[u8]) -> Result<(), NoMemory>
    ensures ok { OnOk result (out.new.items ≡ out.old.items ++ text.now) }
    ensures err { OnErr result (out.new.items ≡ out.old.items) }
{
    out.extend_from_slice(text)?;
    Ok(())
}

/// Puts the decimal digits of a number, without leading zeros.
pub fn put_decimal(out: &mut Vec<u8>, n: u64) -> Result<(), NoMemory>
    ensures ok { OnOk result (out.new.items ≡ out.old.items ++ decimal n) }
    ensures err { OnErr result (out.new.items ≡ out.old.items) }
{
    let mut digits = Buffer::new();
    put_text(out, digits.format(n).as_bytes())
}

/// The hexadecimal digit of a number, in lower case.
fn hex_digit(digit: u8) -> u8
    requires { digit < 16 }
    ensures { result ≡ digit_char digit }
{
    if digit < 10 {
        b'0' + digit
    } else {
        b'a' + (digit - 10)
    }
}

/// Puts a run of `count` equal bytes, as `41*512`.
fn put_run(out: &mut Vec<u8>, byte: u8, count: usize) -> Result<(), NoMemory>
    ensures ok { OnOk result (out.new.items ≡ out.old.items ++ stretch_text (record { byte = byte; count = count })) }
    ensures kept { KeepsText out.old.items out.new.items }
{
    put_text(out, &[hex_digit(byte / 16), hex_digit(byte % 16), b'*'])?;
    put_decimal(out, count as u64)
}

/// Whether the 64 bytes from a place on are all this one. They are compared many at a time.
fn is_block(byte: u8, bytes: &[u8], at: usize) -> bool
    requires { at + 64 ≤ length bytes.now }
    ensures { IsTrue result → (k : ℕ) → k < 64 → slice_index bytes.now (at + k) ≡ byte }
{
    match bytes[at..].first_chunk::<64>() {
        Some(block) => *block == [byte; 64],
        None => false,
    }
}

/// Where the run of equal bytes that begins at a place ends.
fn run_end(bytes: &[u8], at: usize) -> usize
    requires { at < length bytes.now }
    ensures { result ≡ at + prefix_len (λ b. slice_index bytes.now at == b) (drop at bytes.now) }
{
    let byte = bytes[at];
    let mut end = at;
    while bytes.len() - end >= 64 && is_block(byte, bytes, end) {
        end += 64;
    }
    while end < bytes.len() && bytes[end] == byte {
        end += 1;
    }
    end
}

/// Puts the texts of the maximal runs of equal bytes, or the first of them where memory ends.
fn put_each_run(out: &mut Vec<u8>, bytes: &[u8]) -> Result<(), NoMemory>
    ensures ok { OnOk result (out.new.items ≡ out.old.items ++ joined_text (runs_of bytes.now)) }
    ensures kept { KeepsText out.old.items out.new.items }
{
    let mut at = 0;
    while at < bytes.len() {
        let end = run_end(bytes, at);
        put_run(out, bytes[at], end - at)?;
        if end < bytes.len() {
            put_text(out, b" ")?;
        }
        at = end;
    }
    Ok(())
}

/// Puts the maximal runs of equal bytes, each as `hh*n` with the byte in two hexadecimal digits of lower case and the
/// count in decimal ones, with a space between each two; `none` where there is no byte.
pub fn put_runs(out: &mut Vec<u8>, bytes: &[u8]) -> Result<(), NoMemory>
    ensures ok { OnOk result (out.new.items ≡ out.old.items ++ runs_text bytes.now) }
    ensures err { OnErr result (out.new.items ≡ out.old.items) }
{
    if bytes.is_empty() {
        return put_text(out, b"none");
    }
    let before = out.len();
    let put = put_each_run(out, bytes);
    if put.is_err() {
        out.truncate(before);
    }
    put
}
