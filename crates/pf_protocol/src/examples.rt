//! Worked histories of a group, each replayed by the rules: every event may be asked and has its answer, and what the group
//! shows after it. A server applies, after each event, what it can.
ghost use Rattle.pf_entry.specs.Ops.{Sector};
ghost use Rattle.pf_protocol.specs.Answers.{IsLegal};
ghost use Rattle.pf_protocol.specs.Shown.{small_group, IsSector};
ghost use Rattle.pf_protocol.specs.EarlyApply.{early_apply, AppliesEarly};
ghost use Rattle.pf_protocol.specs.PastTheNames.{past_the_names, WaitsPastTheNames};
ghost use Rattle.pf_protocol.specs.GivenAway.{lost_slot, GivesAway};
ghost use Rattle.pf_protocol.specs.Ghosts.{ghost_slots, PassesOver};
ghost use Rattle.pf_protocol.specs.KeptStarts.{kept_start, KeepsStart};
ghost use Rattle.pf_protocol.specs.OutOfOrder.{out_of_order, CommitsOutOfOrder};
ghost use Rattle.pf_protocol.specs.KeptSlot.{kept_slot, KeepsSlot};
ghost use Rattle.pf_protocol.specs.StaleReads.{stale_read, ReadsAtTheLeader};

/// A follower that misses slot 1 applies slot 2, which shares no sector with it, and not slot 3, which shares one. The host
/// is told of slots 2 and 3 before slot 1 (ParallelRaft: acknowledged, committed and applied out of order).
pub fn slots_are_applied_beside_a_missing_one()
    ensures legal { (first second third : Sector) → IsSector first → IsSector second → IsSector third → IsLegal small_group (early_apply first second third) }
    ensures shows { (first second third : Sector) → AppliesEarly first second third }
{}

/// An entry's look-behind list names the two slots before it. A follower that misses slot 1 applies slots 2 and 3, which
/// name it and share no sector with it. Slot 4 shares none either, but does not name it, and waits.
pub fn slots_wait_for_those_they_do_not_name()
    ensures legal { (first second third fourth : Sector) → IsSector first → IsSector second → IsSector third → IsSector fourth
        → IsLegal small_group (past_the_names first second third fourth) }
    ensures shows { (first second third fourth : Sector) → WaitsPastTheNames first second third fourth }
{}

/// A leader stops with a slot that it alone holds. The next leader, whose majority lacks it, gives the slot to another op,
/// which is committed. The old leader comes back with the old op, hears its own packet late, and takes the new entry.
pub fn slots_that_the_majority_lacks_are_given_away()
    ensures legal { (first second : Sector) → IsSector first → IsSector second → IsLegal small_group (lost_slot first second) }
    ensures shows { (first second : Sector) → GivesAway first second }
{}

/// Slots 2 to 4 of term 1 stand at one server alone as the leader of term 2 passes them over and commits another op in slot
/// 2. In term 3 a merge sees them again, and takes none: each is void by the start of term 2.
pub fn ghosts_are_void()
    ensures legal { (first second third fourth fifth sixth : Sector) → IsSector first → IsSector second → IsSector third → IsSector fourth → IsSector fifth
        → IsSector sixth → IsLegal small_group (ghost_slots first second third fourth fifth sixth) }
    ensures shows { (first second third fourth fifth sixth : Sector) → PassesOver first second third fourth fifth sixth }
{}

/// The start of term 2 stays known to a server whose only entry of that term was replaced, so a later merge still passes
/// over an entry of term 1, and fills the slot with a no-op.
pub fn starts_outlive_their_entries()
    ensures legal { (first second third fourth : Sector) → IsSector first → IsSector second → IsSector third → IsSector fourth
        → IsLegal small_group (kept_start first second third fourth) }
    ensures shows { (first second third fourth : Sector) → KeepsStart first second third fourth }
{}

/// A leader that was deposed takes up a read, learns of the new term as it asks the others, and answers none; the next
/// read it refuses. The new leader answers with the bytes that it committed.
pub fn deposed_leaders_answer_no_read()
    ensures legal { (first : Sector) → IsSector first → IsLegal small_group (stale_read first) }
    ensures shows { (first : Sector) → ReadsAtTheLeader first }
{}

/// Both followers acknowledge slot 2 before slot 1 comes to any. The host is told of slot 2 first, and then of slot 1.
pub fn slots_are_committed_out_of_order()
    ensures legal { (first second : Sector) → IsSector first → IsSector second → IsLegal small_group (out_of_order first second) }
    ensures shows { (first second : Sector) → CommitsOutOfOrder first second }
{}

/// A leader stops with an uncommitted slot that a new leader holds too. The new leader merges it, and serves once it is
/// committed in its own term.
pub fn slots_that_the_majority_holds_are_kept()
    ensures legal { (first second : Sector) → IsSector first → IsSector second → IsLegal small_group (kept_slot first second) }
    ensures shows { (first second : Sector) → KeepsSlot first second }
{}
