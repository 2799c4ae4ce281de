//! The messages.
use pf_base::NoMemory;
use pf_text::{decimal, put_decimal, put_text};
use std::alloc::Global;

/// The bytes of a refused line that are shown.
const SHOWN: usize = 80;

/// A refused line: its number, from 1 on, and the number of the refusal.
#[derive(Clone, Copy, Debug, PartialEq, Eq)]
pub struct Refused {
    pub line: u64,
    pub kind: u64,
}

impl Refused {
    /// What `fault L K` and a line feed tell; `None` of any other bytes.
    pub fn read(text: &[u8]) -> Option<Refused> {
        let text = text.strip_prefix(b"fault ")?.strip_suffix(b"\n")?;
        let mut words = text.split(|byte| *byte == b' ');
        let line = decimal(words.next()?)?;
        let kind = decimal(words.next()?)?;
        Some(Refused { line, kind })
    }

    /// What is wrong with the line. A list of transactions has one refusal of its own.
    fn reason(&self, is_list: bool) -> &'static [u8] {
        match self.kind {
            20 if is_list => b"it is not the hexadecimal spelling of one transaction",
            20 => b"there is no such command, or it has another count of words",
            21 => b"a word that should be a number or a byte is none",
            22 => b"a number is outside its range",
            23 => b"it has more than 1,024 bytes",
            24 => b"a script has one volume line, and that is its first command",
            25 => b"there may be 100,000 lines at most",
            _ => b"it can't be read",
        }
    }
}

/// The message of words that are not accepted.
pub fn usage() -> &'static [u8] {
    b"polarfs: these words are not accepted. It takes one of these:
  polarfs run             runs the script of standard input, and writes its report
  polarfs gen N           runs the script that the number N generates, and writes one line of it
  polarfs check           judges the tables that the transactions of standard input make
  polarfs log G I         lists the records that a restart of server I of group G would find
run and gen have this option:
  --workers W             copies sectors on at most W threads, 1 to 8 (2 where it is not given)
run and log have this option:
  --dir PATH              keeps the disks as files in this folder (in memory where it is not given)
docs/script.md describes the language of scripts and of their reports, and the lists of transactions.
"
}

/// The message of want of memory.
pub fn memory() -> &'static [u8] {
    b"polarfs: memory ran out. What was written is the beginning of what was to be written.
"
}

/// The message of a source that failed.
pub fn reading() -> &'static [u8] {
    b"polarfs: standard input could not be read to its end, so nothing was done.
"
}

/// The message of a sink that failed.
pub fn writing() -> &'static [u8] {
    b"polarfs: standard output could not be written. It has the beginning of what was to be written.
"
}

/// Puts one of the sixteen digits.
fn put_digit(out: &mut Vec<u8>, digit: u8) -> Result<(), NoMemory> {
    let digit = digit % 16;
    let byte = if digit < 10 {
        b'0' + digit
    } else {
        b'a' + (digit - 10)
    };
    put_text(out, &[byte])
}

/// Puts a byte, or `\xNN` where it does not print.
fn put_byte(out: &mut Vec<u8>, byte: u8) -> Result<(), NoMemory> {
    if (b' '..=b'~').contains(&byte) {
        return put_text(out, &[byte]);
    }
    put_text(out, b"\\x")?;
    put_digit(out, byte / 16)?;
    put_digit(out, byte)
}

/// The message of a refused line, with its first 80 bytes where they are known. A list of transactions is no script. The one error is
/// `NoMemory` (1).
pub fn refusal(
    alloc: Global,
    refused: Refused,
    is_list: bool,
    line: Option<&[u8]>,
) -> Result<Vec<u8>, NoMemory> {
    let mut out = Vec::new(alloc);
    put_text(&mut out, b"polarfs: line ")?;
    put_decimal(&mut out, refused.line)?;
    put_text(&mut out, b" is refused: ")?;
    put_text(&mut out, refused.reason(is_list))?;
    put_text(&mut out, b". Nothing was done.\n")?;
    if let Some(bytes) = line.filter(|bytes| !bytes.is_empty()) {
        put_text(&mut out, b"  ")?;
        for byte in bytes.iter().take(SHOWN) {
            put_byte(&mut out, *byte)?;
        }
        put_text(&mut out, b"\n")?;
    }
    Ok(out)
}
