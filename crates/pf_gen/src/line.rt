//! Lines of numbers.
ghost use Rattle.std.specs.Prelude.{◌≡◌, ◌++◌, ◌∷◌, [], OnOk};
ghost use Rattle.hex.specs.Hex.{encode_lower};
ghost use Rattle.pf_gen.specs.Lines.{drawn_line, server_words, spaced, submit_text};

use pf_base::NoMemory;
use pf_text::{put_decimal, put_text};

/// Puts a space and a number.
fn put_spaced(out: &mut Vec<u8>, n: u64) -> Result<(), NoMemory>
    ensures { OnOk result (out.new.items ≡ out.old.items ++ spaced n) }
{
    put_text(out, b" ")?;
    put_decimal(out, n)
}

/// Puts a byte in two hexadecimal digits of lower case.
fn put_hex(out: &mut Vec<u8>, byte: u8) -> Result<(), NoMemory>
    ensures { OnOk result (out.new.items ≡ out.old.items ++ encode_lower (byte ∷ [])) }
{
    let digits = hex::encode(*out.allocator(), [byte])?;
    put_text(out, digits.as_bytes())
}

/// Puts a verb, and the group and the server that a number draws.
fn put_of_server(out: &mut Vec<u8>, verb: &[u8], drawn: u64) -> Result<(), NoMemory>
    ensures { OnOk result (out.new.items ≡ out.old.items ++ server_words verb.now drawn) }
{
    put_text(out, verb)?;
    put_spaced(out, (drawn >> 36) % 2)?;
    put_spaced(out, (drawn >> 40) % 3)
}

/// Puts a write of the sectors and the byte that a number draws.
fn put_submit(out: &mut Vec<u8>, drawn: u64) -> Result<(), NoMemory>
    ensures { OnOk result (out.new.items ≡ out.old.items ++ submit_text drawn) }
{
    put_of_server(out, b"submit", drawn)?;
    put_spaced(out, (drawn >> 44) % 57)?;
    put_text(out, b" ")?;
    put_hex(out, (drawn >> 56) as u8)?;
    put_spaced(out, (drawn >> 52) % 8 + 1)
}

/// Puts the line that a number draws, with its line feed.
pub(crate) fn put_line(out: &mut Vec<u8>, drawn: u64) -> Result<(), NoMemory>
    ensures { OnOk result (out.new.items ≡ out.old.items ++ drawn_line drawn) }
{
    match (drawn >> 32) % 16 {
        0..=8 => put_submit(out, drawn)?,
        9..=11 => put_text(out, b"settle 20")?,
        12 => put_of_server(out, b"resend", drawn)?,
        13 => put_of_server(out, b"stop", drawn)?,
        14 => put_of_server(out, b"restart", drawn)?,
        _ => put_of_server(out, b"elect", drawn)?,
    }
    put_text(out, b"\n")
}
