//! Which entries of a vote are left, and which of two is taken.
ghost use Rattle.std.specs.Prelude.{◌≡◌, ◌&&◌, ◌||◌, nat_le, nat_lt};
ghost use Rattle.std.specs.Option.{option_copied};
ghost use Rattle.std.specs.List.{list_any};
ghost use Rattle.pf_entry.specs.Merging.{higher, is_passed_over, left_of};
ghost use Rattle.pf_entry.specs.Voids.{is_void};
ghost use Rattle.pf_merge.specs.Staying.{entry_stays};

use pf_base::{Slot, Term};
use pf_entry::{Entry, Start, Starts, VoteLog};

/// Whether one of these terms is later than `term` and began at or below the slot.
fn has_later(starts: &[Start], slot: Slot, term: Term) -> bool
    ensures { result ≡ list_any (λ s. nat_lt term s.term && nat_le s.first slot) starts.now }
{
    starts
        .iter()
        .any(|start| term < start.term && start.first <= slot)
}

/// Whether an entry of this slot and term is void by these starts.
fn is_void(starts: &Starts, slot: Slot, term: Term) -> bool
    ensures { result ≡ is_void starts.now slot term }
{
    has_later(starts.as_slice(), slot, term)
}

/// Whether an entry of this slot and term is void by the starts of either vote.
fn is_passed_over(own: &VoteLog, other: &VoteLog, slot: Slot, term: Term) -> bool
    ensures { result ≡ is_passed_over own.now other.now slot term }
{
    is_void(&own.starts, slot, term) || is_void(&other.starts, slot, term)
}

/// Whether the entry is above the checkpoint and not void.
pub(crate) fn stays(base: Slot, own: &VoteLog, other: &VoteLog, entry: &Entry) -> bool
    ensures { result ≡ entry_stays base own.now other.now entry.now }
{
    base < entry.slot && !is_passed_over(own, other, entry.slot, entry.term)
}

/// The entry of the slot, where it is left.
#[tactic(auto, unfolding(pf_entry::specs::Merging::left_of))]
pub(crate) fn left<'a>(
    base: Slot,
    own: &VoteLog,
    other: &VoteLog,
    slot: Slot,
    held: Option<&'a Entry>,
) -> Option<&'a Entry>
    ensures { option_copied result ≡ left_of base own.now other.now slot (option_copied held.entry) }
{
    match held {
        Some(entry) if base < slot && !is_passed_over(own, other, slot, entry.term) => Some(entry),
        _ => None,
    }
}

/// The entry of the higher term, the candidate's own where both have one of that term.
#[tactic(auto, unfolding(pf_entry::specs::Merging::higher))]
pub(crate) fn higher<'a>(mine: Option<&'a Entry>, theirs: Option<&'a Entry>) -> Option<&'a Entry>
    ensures { option_copied result ≡ higher (option_copied mine.entry) (option_copied theirs.entry) }
{
    match (mine, theirs) {
        (Some(own), Some(other)) if own.term < other.term => Some(other),
        (Some(own), _) => Some(own),
        (None, other) => other,
    }
}
