//! Laws of every history of a journal over some anchors: one list of transactions.
ghost use Rattle.std.specs.Prelude.{◌≡◌, ◌≢◌, ℕ, ◌*◌, ◌<◌, ◌≤◌, List, [], length, Some, slice_get};
ghost use Rattle.pf_paxos.specs.Journals.{Begins};
ghost use Rattle.pf_paxos.specs.Quorums.{DecidesOver, FindsNothingOver, IsOpenAt};
ghost use Rattle.pf_law_lists.specs.Journals.{Doing, journal_before, history_at, position_of};
ghost use Rattle.pf_law_lists.specs.Journals.{AreAllRegistersAt, BeginsAtRest, IsDecidedAt, IsDecidedBefore, IsTransactionList, PutsInNew};

/// Each value of a mount's list is decided in its position, before the mount has it. So a mount proposes at a position only after all
/// positions below it are decided. This holds over any memory.
pub fn lists_are_decided()
    ensures { (anchors quorum : ℕ) (doings : List Doing) (mount moment position : ℕ) (value : List ℕ)
        → slice_get ((journal_before anchors quorum doings moment).list mount) position ≡ Some value
        → IsDecidedBefore anchors quorum doings position moment value }
{}

/// Where a position is decided, each position below it was decided before the deciding ballot asked its write of phase 2, on each anchor of
/// its quorum. This holds over any memory.
pub fn positions_are_decided_in_order()
    ensures { (anchors quorum : ℕ) (doings : List Doing) (position below ballot : ℕ) (value : List ℕ)
        → (d : DecidesOver anchors quorum (history_at anchors quorum position doings) ballot value) → below < position
        → (place anchor : ℕ) (at : slice_get d.used place ≡ Some anchor)
        → (other : List ℕ) × IsDecidedBefore anchors quorum doings below (d.each place anchor at).asked other }
{}

/// There is a transaction list, over any memory.
pub fn transaction_lists_exist()
    ensures { (anchors quorum : ℕ) (doings : List Doing) → 0 < quorum → (list : List (List ℕ)) × IsTransactionList anchors quorum doings list }
{}

/// There is one list: what a mount has at any moment begins each transaction list, and of the lists of two mounts, at any two moments,
/// the shorter one begins the other.
pub fn mounts_share_one_list()
    ensures list { (anchors quorum : ℕ) (doings : List Doing) → anchors < 2 * quorum → AreAllRegistersAt anchors quorum doings → (list : List (List ℕ))
        → IsTransactionList anchors quorum doings list → (mount moment : ℕ) → Begins ((journal_before anchors quorum doings moment).list mount) list }
    ensures mounts { (anchors quorum : ℕ) (doings : List Doing) → anchors < 2 * quorum → AreAllRegistersAt anchors quorum doings
        → (mount other moment later : ℕ) → length ((journal_before anchors quorum doings moment).list mount) ≤ length
        ((journal_before anchors quorum doings later).list other) → Begins ((journal_before anchors quorum doings moment).list mount)
        ((journal_before anchors quorum doings later).list other) }
{}

/// Where mounts put in only what is not in their lists, no value is decided in two positions.
pub fn values_are_decided_once()
    ensures { (anchors quorum : ℕ) (doings : List Doing) → anchors < 2 * quorum → AreAllRegistersAt anchors quorum doings → PutsInNew anchors quorum doings
        → (position other : ℕ) (value : List ℕ) → value ≢ [] → IsDecidedAt anchors quorum doings position value → IsDecidedAt anchors quorum doings other value
        → position ≡ other }
{}

/// A mount whose sync of a position finds no nonzero bal on a quorum has missed nothing that was decided before the sync's first read was
/// asked: of each ballot that decides this position or a later one, some anchor had not answered the write of phase 2 by then, and no
/// mount stood at a later position.
pub fn quiet_syncs_miss_nothing()
    ensures undecided { (anchors quorum : ℕ) (doings : List Doing) → anchors < 2 * quorum → AreAllRegistersAt anchors quorum doings
        → (position from later ballot : ℕ) (value : List ℕ) → FindsNothingOver anchors quorum (history_at anchors quorum position doings) from
        → position ≤ later → (d : DecidesOver anchors quorum (history_at anchors quorum later doings) ballot value) → IsOpenAt d from }
    ensures stands { (anchors quorum : ℕ) (doings : List Doing) → anchors < 2 * quorum → AreAllRegistersAt anchors quorum doings
        → (position from mount : ℕ) → FindsNothingOver anchors quorum (history_at anchors quorum position doings) from
        → position_of (journal_before anchors quorum doings from) mount ≤ position }
{}

/// Where a ballot needs all anchors, and mounts begin ballots only where none of their own runs, a transaction list ends at the first
/// position that is not decided: whatever decides, its mount tells it.
pub fn lists_over_all_anchors_are_whole()
    ensures { (anchors quorum : ℕ) (doings : List Doing) → quorum ≡ anchors → 0 < anchors → AreAllRegistersAt anchors quorum doings
        → BeginsAtRest anchors quorum doings → (list : List (List ℕ)) → IsTransactionList anchors quorum doings list
        → (position : ℕ) (value : List ℕ) → length list ≤ position → IsDecidedAt anchors quorum doings position value → ⊥ }
{}
