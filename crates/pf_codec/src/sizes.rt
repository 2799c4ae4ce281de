//! How many bytes entries, votes and payloads of records take.
ghost use Rattle.std.specs.Prelude.{◌≡◌, ◌+◌, ◌*◌, ◌<◌, ◌≤◌, ◌^◌, length, sum_by};
ghost use Rattle.pf_entry.specs.Canonical.{IsCanonicalEntry, IsCanonicalVote, IsCanonicalImage, IsCanonicalRecord, second_format};
ghost use Rattle.pf_entry.specs.Lists.{Every};
ghost use Rattle.pf_entry.specs.Sizes.{op_size, entry_size, slots_size, sectors_size, vote_size, payload_size};

use crate::ThinSectors;
use pf_entry::{Entry, Op, Record, Slots, VoteLog};

/// The bytes of an op.
fn op_size(op: &Op) -> u64
    ensures { result ≡ op_size op.now }
{
    match op {
        Op::Write { range: _, payload } => 6 + 512 * payload.len() as u64,
        Op::Noop => 1,
        Op::Mark => 1,
    }
}

/// The bytes of an entry, at most 4,400.
pub fn entry_size(entry: &Entry) -> u64
    requires { IsCanonicalEntry second_format entry.now }
    ensures size { result ≡ entry_size entry.now }
    ensures most { result ≤ 4400 }
{
    25 + 13 * entry.look.as_slice().len() as u64 + op_size(&entry.op)
}

/// The bytes of entries without their count.
fn entries_size(entries: &[Entry]) -> u64
    requires few { length entries.now < 2 ^ 32 }
    requires canonical { Every (IsCanonicalEntry second_format) entries.now }
    ensures size { result ≡ sum_by entry_size entries.now }
    ensures most { result ≤ 4400 * length entries.now }
{
    let mut size = 0;
    for entry in entries {
        size += entry_size(entry);
    }
    size
}

/// The bytes of the payload of the record of merged entries.
pub(crate) fn merged_size(entries: &[Entry]) -> u64
    requires few { length entries.now < 2 ^ 32 }
    requires canonical { Every (IsCanonicalEntry second_format) entries.now }
    ensures { result ≡ 20 + sum_by entry_size entries.now }
{
    20 + entries_size(entries)
}

/// The bytes of a vote.
pub fn vote_size(vote: &VoteLog) -> u64
    requires { IsCanonicalVote second_format vote.now }
    ensures size { result ≡ vote_size vote.now }
    ensures most { result < 2 ^ 48 }
{
    let starts = vote.starts.as_slice().len() as u64;
    14 + 16 * starts + entries_size(vote.log.as_slice())
}

/// The bytes of an image with its generation and its term.
pub(crate) fn image_size(vote: &VoteLog, applied: &Slots, sectors: &ThinSectors) -> u64
    requires vote { IsCanonicalVote second_format vote.now }
    requires image { IsCanonicalImage vote.now.base applied.now sectors.now }
    ensures { result ≡ 16 + vote_size vote.now + slots_size applied.now + sectors_size sectors.now }
{
    let slots = applied.as_slice().len() as u64;
    let count = sectors.len() as u64;
    24 + vote_size(vote) + 8 * slots + 512 * count
}

/// The bytes of the fields of a record.
fn fields_size(rec: &Record) -> u64
    requires { IsCanonicalRecord 2 rec.now }
    ensures { result ≡ payload_size rec.now }
{
    match rec {
        Record::Image {
            generation: _,
            term: _,
            vote,
            applied,
            sectors,
        } => image_size(vote, applied, &ThinSectors::all(sectors)),
        Record::Term(_) => 8,
        Record::Entry(entry) => entry_size(entry),
        Record::Merged {
            term: _,
            first: _,
            entries,
        } => merged_size(entries.as_slice()),
    }
}

/// The bytes of the payload of a record.
pub(crate) fn payload_size(rec: &Record) -> u32
    requires { IsCanonicalRecord 2 rec.now }
    ensures { result ≡ payload_size rec.now }
{
    fields_size(rec) as u32
}
