//! The bodies of records: what stands round a payload, and the bodies of entries and images that are spelled from where they stand.
ghost use Rattle.std.specs.Prelude.{◌≡◌, ◌++◌, IfOk};
ghost use Rattle.std.specs.Int.{w32};
ghost use Rattle.pf_entry.specs.Canonical.{IsCanonicalEntry, IsCanonicalRecord, second_format};
ghost use Rattle.pf_entry.specs.declared.records.Record.TheVariants.{Entry as EntryRecord, Image as ImageRecord, Merged as MergedRecord};
ghost use Rattle.pf_codec.specs.Spelling.{byte, number, body_bytes};

use crate::sizes::{entry_size, image_size, merged_size};
use crate::writing::{write_entry, write_image, write_merged};
use crate::{ThinSectors, Writer};
use pf_base::{NoMemory, Slot, Term};
use pf_entry::{Entry, Slots, VoteLog};
use std::alloc::Global;

// The numbers of the kinds of records.
pub(crate) const IMAGE: u8 = 1;

pub(crate) const TERM: u8 = 2;

pub(crate) const ENTRY: u8 = 3;

pub(crate) const MERGED: u8 = 4;

/// The bytes of a body round its payload: a kind, a length and a gate.
const AROUND: usize = 6;

/// The gate of a record that is not there yet.
const CLOSED: u8 = 0;

/// The kind of a record and the length of its payload in four bytes, in this memory, and room for the whole body.
pub(crate) fn begin_body(memory: Vec<u8>, kind: u8, size: u32) -> Result<Writer, NoMemory>
    ensures { IfOk result (λ body. body ≡ byte kind ++ number w32 size) }
{
    let mut body = Writer::over(memory, size as usize + AROUND)?;
    body.u8(kind)?;
    body.u32(size)?;
    Ok(body)
}

/// The body with the closed gate of the record after it.
pub(crate) fn end_body(mut body: Writer) -> Result<Vec<u8>, NoMemory>
    ensures { IfOk result (λ bytes. bytes.items ≡ body ++ byte 0) }
{
    body.u8(CLOSED)?;
    body.into_vec()
}

/// The body of the record of an entry, in this memory, whatever stands in it. The one error is `NoMemory` (1).
#[tactic(auto, using(std::proofs::lemmas::List::append_assoc), unfolding(crate::specs::Spelling::body_bytes, crate::specs::Spelling::payload_bytes))]
pub fn spell_entry(memory: Vec<u8>, entry: &Entry) -> Result<Vec<u8>, NoMemory>
    requires { IsCanonicalEntry second_format entry.now }
    ensures { IfOk result (λ bytes. bytes.items ≡ body_bytes (EntryRecord entry.now)) }
{
    let mut body = begin_body(memory, ENTRY, entry_size(entry) as u32)?;
    write_entry(&mut body, entry)?;
    end_body(body)
}

/// The body of the record of merged entries and the first new slot. The one error is `NoMemory` (1).
#[tactic(auto, using(std::proofs::lemmas::List::append_assoc), unfolding(crate::specs::Spelling::body_bytes, crate::specs::Spelling::payload_bytes))]
pub fn spell_merged(
    alloc: Global,
    term: Term,
    first: Slot,
    entries: &[Entry],
) -> Result<Vec<u8>, NoMemory>
    requires { IsCanonicalRecord 2 (MergedRecord term first entries.now) }
    ensures { IfOk result (λ bytes. bytes.items ≡ body_bytes (MergedRecord term first entries.now)) }
{
    let mut body = begin_body(Vec::new(alloc), MERGED, merged_size(entries) as u32)?;
    write_merged(&mut body, term, first, entries)?;
    end_body(body)
}

/// The body of the record of an image. The one error is `NoMemory` (1).
#[tactic(auto, using(std::proofs::lemmas::List::append_assoc), unfolding(crate::specs::Spelling::body_bytes))]
pub fn spell_image(
    alloc: Global,
    generation: u64,
    term: Term,
    vote: &VoteLog,
    applied: &Slots,
    sectors: &ThinSectors,
) -> Result<Vec<u8>, NoMemory>
    requires { IsCanonicalRecord 2 (ImageRecord generation term vote.now applied.now sectors.now) }
    ensures { IfOk result (λ bytes. bytes.items ≡ body_bytes (ImageRecord generation term vote.now applied.now sectors.now)) }
{
    let size = image_size(vote, applied, sectors) as u32;
    let mut body = begin_body(Vec::new(alloc), IMAGE, size)?;
    write_image(&mut body, generation, term, vote, applied, sectors)?;
    end_body(body)
}
