//! The numbers and bytes that words spell.
ghost use Rattle.std.specs.Prelude.{◌≡◌};
ghost use Rattle.pf_script.specs.Values.{number_value as number_in, byte_value as byte_in};

use crate::LineFault;
use pf_text::{decimal, hex_byte};

/// The number that a word spells, below 2^64. Another word is `BadNumber` (21).
pub fn number(word: &[u8]) -> Result<u64, LineFault>
    ensures { result ≡ number_in word.now }
{
    decimal(word).ok_or(LineFault::BadNumber)
}

/// The byte that a word spells, of two hex digits. Another word is `BadNumber` (21).
pub fn byte(word: &[u8]) -> Result<u8, LineFault>
    ensures { result ≡ byte_in word.now }
{
    hex_byte(word).ok_or(LineFault::BadNumber)
}
