//! Bytes as texts of an XML document, in ASCII alone.
ghost use Rattle.std.specs.Prelude.{◌≡◌, ◌++◌, ◌<◌, IfOk, OnOk};
ghost use Rattle.std.specs.Char.{digit_char};
ghost use Rattle.pf_draw_shapes.specs.Texts.{cut_text, shown_byte, shown_text, xml_byte, xml_text};

use pf_base::{Bytes, NoMemory};
use pf_text::put_text;
use std::alloc::Global;

/// The hexadecimal digit of a number, in lower case.
fn hex_digit(digit: u8) -> u8
    requires { digit < 16 }
    ensures { result ≡ digit_char digit }
{
    if digit < 10 {
        b'0' + digit
    } else {
        b'a' + (digit - 10)
    }
}

/// Puts a byte as it is where it is printable ASCII, else as `\x` and its two hexadecimal digits.
fn put_shown(out: &mut Vec<u8>, byte: u8) -> Result<(), NoMemory>
    ensures { OnOk result (out.new.items ≡ out.old.items ++ shown_byte byte) }
{
    if 32 <= byte && byte <= 126 {
        return put_text(out, &[byte]);
    }
    put_text(
        out,
        &[b'\\', b'x', hex_digit(byte / 16), hex_digit(byte % 16)],
    )
}

/// Puts a byte so that XML reads it as a part of a text.
fn put_xml_byte(out: &mut Vec<u8>, byte: u8) -> Result<(), NoMemory>
    ensures { OnOk result (out.new.items ≡ out.old.items ++ xml_byte byte) }
{
    match byte {
        b'&' => put_text(out, b"&amp;"),
        b'<' => put_text(out, b"&lt;"),
        b'>' => put_text(out, b"&gt;"),
        b'"' => put_text(out, b"&quot;"),
        _ => put_shown(out, byte),
    }
}

/// Puts bytes so that XML reads them as a text. Where memory ends, the first of them may have been put.
pub(crate) fn put_xml(out: &mut Vec<u8>, text: &[u8]) -> Result<(), NoMemory>
    ensures { OnOk result (out.new.items ≡ out.old.items ++ xml_text text.now) }
{
    for byte in text {
        put_xml_byte(out, *byte)?;
    }
    Ok(())
}

/// The bytes as printable ASCII.
fn shown(alloc: Global, bytes: &[u8]) -> Result<Vec<u8>, NoMemory>
    ensures { IfOk result (λ text. text.items ≡ shown_text bytes.now) }
{
    let mut out = Vec::new(alloc);
    for byte in bytes {
        put_shown(&mut out, *byte)?;
    }
    Ok(out)
}

/// The bytes as printable ASCII, of which at most so many characters are left; two dots then tell that more stood there.
pub fn cut(alloc: Global, bytes: &[u8], most: usize) -> Result<Bytes, NoMemory>
    ensures { IfOk result (λ text. text ≡ cut_text most bytes.now) }
{
    let mut text = shown(alloc, bytes)?;
    if most < text.len() {
        text.truncate(most);
        put_text(&mut text, b"..")?;
    }
    Ok(Bytes::new(text))
}
