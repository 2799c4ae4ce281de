//! Lines, which are put as a whole: what was put of a line is taken back where memory ends midway.
ghost use Rattle.std.specs.Prelude.{◌≡◌, ◌++◌, ◌∷◌, [], codes, take, OnOk, OnErr};
ghost use Rattle.std.specs.Fmt.{decimal};
ghost use Rattle.std.specs.List.{flat_map};
ghost use Rattle.pf_text.specs.Kept.{KeepsText};
ghost use Rattle.pf_report.specs.Texts.{event_line, report_line, spaced};

use pf_base::NoMemory;
use pf_text::{put_decimal, put_text};

/// Takes back what stands behind a place where memory ended before all was put.
pub(crate) fn settled(
    out: &mut Vec<u8>,
    before: usize,
    put: Result<(), NoMemory>,
) -> Result<(), NoMemory>
    ensures same { result ≡ put }
    ensures ok { OnOk put (out.new.items ≡ out.old.items) }
    ensures err { OnErr put (out.new.items ≡ take before out.old.items) }
{
    if put.is_err() {
        out.truncate(before);
    }
    put
}

/// Puts the number of a line of the script and a space.
pub(crate) fn put_number(out: &mut Vec<u8>, number: u32) -> Result<(), NoMemory>
    ensures ok { OnOk result (out.new.items ≡ out.old.items ++ (decimal number ++ 32 ∷ [])) }
    ensures kept { KeepsText out.old.items out.new.items }
{
    put_decimal(out, u64::from(number))?;
    put_text(out, b" ")
}

fn write_words(out: &mut Vec<u8>, number: u32, words: &[u8]) -> Result<(), NoMemory>
    ensures ok { OnOk result (out.new.items ≡ out.old.items ++ report_line number words.now) }
    ensures kept { KeepsText out.old.items out.new.items }
{
    put_number(out, number)?;
    put_text(out, words)?;
    put_text(out, b"\n")
}

/// Puts a line with the given text.
pub(crate) fn put_words(out: &mut Vec<u8>, number: u32, words: &[u8]) -> Result<(), NoMemory>
    ensures ok { OnOk result (out.new.items ≡ out.old.items ++ report_line number words.now) }
    ensures err { OnErr result (out.new.items ≡ out.old.items) }
{
    let before = out.len();
    let put = write_words(out, number, words);
    settled(out, before, put)
}

fn write_numbered(out: &mut Vec<u8>, number: u32, words: &[u8], n: u64) -> Result<(), NoMemory>
    ensures ok { OnOk result (out.new.items ≡ out.old.items ++ report_line number (words.now ++ decimal n)) }
    ensures kept { KeepsText out.old.items out.new.items }
{
    put_number(out, number)?;
    put_text(out, words)?;
    put_decimal(out, n)?;
    put_text(out, b"\n")
}

/// Puts a line with the given text and a number.
pub(crate) fn put_numbered(
    out: &mut Vec<u8>,
    number: u32,
    words: &[u8],
    n: u64,
) -> Result<(), NoMemory>
    ensures ok { OnOk result (out.new.items ≡ out.old.items ++ report_line number (words.now ++ decimal n)) }
    ensures err { OnErr result (out.new.items ≡ out.old.items) }
{
    let before = out.len();
    let put = write_numbered(out, number, words, n);
    settled(out, before, put)
}

fn write_ended(out: &mut Vec<u8>, words: &[u8], n: u64) -> Result<(), NoMemory>
    ensures ok { OnOk result (out.new.items ≡ out.old.items ++ event_line (words.now ++ decimal n ++ codes " ok")) }
    ensures kept { KeepsText out.old.items out.new.items }
{
    put_text(out, b"- ")?;
    put_text(out, words)?;
    put_decimal(out, n)?;
    put_text(out, b" ok")?;
    put_text(out, b"\n")
}

/// Puts the event line of what has ended well: the given text, a number and `ok`.
pub(crate) fn put_ended(out: &mut Vec<u8>, words: &[u8], n: u64) -> Result<(), NoMemory>
    ensures ok { OnOk result (out.new.items ≡ out.old.items ++ event_line (words.now ++ decimal n ++ codes " ok")) }
    ensures err { OnErr result (out.new.items ≡ out.old.items) }
{
    let before = out.len();
    let put = write_ended(out, words, n);
    settled(out, before, put)
}

/// Puts a space and a number.
pub(crate) fn put_spaced(out: &mut Vec<u8>, n: u64) -> Result<(), NoMemory>
    ensures ok { OnOk result (out.new.items ≡ out.old.items ++ spaced n) }
    ensures kept { KeepsText out.old.items out.new.items }
{
    put_text(out, b" ")?;
    put_decimal(out, n)
}

/// Puts each of these numbers with a space before it.
pub(crate) fn put_all_spaced(out: &mut Vec<u8>, numbers: &[u64]) -> Result<(), NoMemory>
    ensures ok { OnOk result (out.new.items ≡ out.old.items ++ flat_map spaced numbers.now) }
    ensures kept { KeepsText out.old.items out.new.items }
{
    for n in numbers {
        put_spaced(out, *n)?;
    }
    Ok(())
}
