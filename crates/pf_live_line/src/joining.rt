//! The seats of a run are taken in.
ghost use Rattle.std.specs.Prelude.{◌≡◌, ℕ, ◌-◌, ◌<◌};
ghost use Rattle.pf_turn.specs.Lists.{Begins, entries_of};
ghost use Rattle.pf_turn.specs.Own.{EachOf};
ghost use Rattle.pf_live_seats.specs.pf_shared.specs.Seats.{IsSeatOf, number_of, root_in, seen_by, splits_of};
ghost use Rattle.pf_live_line.specs.Joining.{IsJoining};
ghost use Rattle.pf_live_line.specs.Runs.{IsSince};

use pf_disk::Disk;
use pf_live_seats::LinePlan;
use pf_live_seats::pf_shared::{GroupSeat, SharedGroup};
use std::snapshot::Snapshot;

/// Takes in the next seat of a run. What its entries are is known from then on.
pub(crate) fn take_in<D: Disk + Drop>(
    group: &SharedGroup<D>,
    _plan: &LinePlan,
    _begun: &Snapshot<GroupSeat<D>>,
    _submitted: &Snapshot<GroupSeat<D>>,
    first: &mut GroupSeat<D>,
    seat: GroupSeat<D>,
)
    requires joining { IsJoining group.now _plan.now _begun.now.value _submitted.now.value (number_of seat - 1) first.old }
    requires seat { IsSeatOf group.now seat × (0 < number_of seat) }
    requires known { EachOf (number_of seat) (IsSince _plan.now (root_in group.now) (seen_by _begun.now.value) (splits_of _begun.now.value)
        (seen_by _submitted.now.value) (number_of seat)) (seen_by seat) }
    ensures joining { IsJoining group.now _plan.now _begun.now.value _submitted.now.value (number_of seat) first.new }
    ensures begins { Begins (seen_by first.old) (seen_by first.new) × Begins (seen_by seat) (seen_by first.new) }
    ensures others { (n : ℕ) → n < number_of seat → entries_of n (seen_by first.new) ≡ entries_of n (seen_by first.old) }
    ensures brought { entries_of (number_of seat) (seen_by first.new) ≡ entries_of (number_of seat) (seen_by seat) }
{
    group.join(first, seat);
}
