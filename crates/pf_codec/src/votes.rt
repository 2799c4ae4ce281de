//! Votes at the front of bytes.
ghost use Rattle.std.specs.Prelude.{◌≡◌};
ghost use Rattle.std.specs.List.{list_all};
ghost use Rattle.pf_codec.specs.Parsers.{ParserGives};
ghost use Rattle.pf_codec.specs.Reading.{is_slot_within, is_log, log_at, vote_at};

use crate::entries::read_entries;
use crate::keys::ascend;
use crate::tables::read_starts;
use crate::{Bounds, ByteReader, ReadFault};
use pf_base::Slot;
use pf_entry::{Entry, EntryMap, VoteLog};
use std::alloc::Global;

/// Whether every entry lies above the checkpoint, and within the window.
fn are_within(base: Slot, window: u64, rows: &[Entry]) -> bool
    ensures { result ≡ list_all (λ e. is_slot_within base window e.slot) rows.now }
{
    rows.iter()
        .all(|entry| base < entry.slot && entry.slot - base <= window)
}

#[tactic(auto, unfolding(crate::specs::Reading::is_log))]
fn is_log(bounds: Bounds, base: Slot, rows: &[Entry]) -> bool
    ensures { result ≡ is_log bounds base rows.now }
{
    ascend(rows) && are_within(base, bounds.window(), rows)
}

/// A count, and as many entries of a log above the checkpoint `base`.
#[tactic(auto, unfolding(crate::specs::Reading::log_at, crate::specs::Reading::is_log, crate::specs::Parsers::followed_by, crate::specs::Parsers::checked))]
pub(crate) fn read_log(
    alloc: Global,
    reader: &mut ByteReader,
    bounds: Bounds,
    base: Slot,
) -> Result<EntryMap, ReadFault>
    ensures { ParserGives (λ log. log) result reader.new (log_at bounds base reader.old) }
{
    let rows = read_entries(alloc, reader, bounds)?;
    if !is_log(bounds, base, &rows) {
        return Err(ReadFault::Malformed);
    }
    Ok(EntryMap::new(rows))
}

/// A vote that is canonical within these bounds; `Malformed` where no such vote's spelling stands at the front, and
/// `NoMemory` (1) where memory has run out.
#[tactic(auto, unfolding(crate::specs::Reading::vote_at, crate::specs::Parsers::followed_by, crate::specs::Parsers::checked))]
pub fn read_vote(
    alloc: Global,
    reader: &mut ByteReader,
    bounds: Bounds,
) -> Result<VoteLog, ReadFault>
    ensures { ParserGives (λ vote. vote) result reader.new (vote_at bounds reader.old) }
{
    let base = reader.u64()?;
    let starts = read_starts(alloc, reader)?;
    let log = read_log(alloc, reader, bounds, base)?;
    Ok(VoteLog { base, starts, log })
}
