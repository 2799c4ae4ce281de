//! Bytes as sectors, and back.
ghost use Rattle.std.specs.Prelude.{◌≡◌, ◌+◌, ◌*◌, ◌++◌, IfOk, OnOk, length, replicate};
ghost use Rattle.pf_file_calls.specs.Blocks.{bytes_of, sectors_of};

use pf_base::{NoMemory, Sector};
use std::alloc::Global;

/// The bytes of sectors, one sector after another, behind those that are there.
#[tactic(auto, using(crate::proofs::Cut::more_bytes))]
pub(crate) fn joined(alloc: Global, bytes: &[u8], sectors: &[Sector]) -> Result<Vec<u8>, NoMemory>
    ensures bytes { IfOk result (λ all. all.items ≡ bytes.now ++ bytes_of sectors.now) }
    ensures count { IfOk result (λ all. length all.items ≡ length bytes.now + 512 * length sectors.now) }
{
    let mut all = Vec::from_slice(alloc, bytes)?;
    for sector in sectors {
        all.extend_from_slice(sector)?;
    }
    Ok(all)
}

/// So many sectors of bytes.
pub(crate) fn cut(alloc: Global, bytes: &[u8], count: u32) -> Result<Vec<Sector>, NoMemory>
    requires { length bytes.now ≡ 512 * count }
    ensures { IfOk result (λ sectors. sectors.items ≡ sectors_of count bytes.now) }
{
    let mut sectors = Vec::with_capacity(alloc, count as usize)?;
    push_sectors(&mut sectors, bytes, count)?;
    Ok(sectors)
}

/// Puts so many sectors of bytes at the end.
fn push_sectors(sectors: &mut Vec<Sector>, bytes: &[u8], count: u32) -> Result<(), NoMemory>
    requires { length bytes.now ≡ 512 * count }
    ensures { OnOk result (sectors.new.items ≡ sectors.old.items ++ sectors_of count bytes.now) }
{
    let Some((sector, rest)) = bytes.split_first_chunk() else {
        return Ok(());
    };
    sectors.push(*sector)?;
    push_sectors(sectors, rest, count - 1)
}

/// So many bytes of zero.
pub(crate) fn zeros(alloc: Global, count: usize) -> Result<Vec<u8>, NoMemory>
    ensures { IfOk result (λ bytes. bytes.items ≡ replicate count 0) }
{
    let mut bytes = Vec::with_capacity(alloc, count)?;
    for made in 0..count {
        bytes.push(0)?;
    }
    Ok(bytes)
}
