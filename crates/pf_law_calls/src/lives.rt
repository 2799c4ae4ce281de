//! Laws of all that mounts over a layout may hear.
ghost use Rattle.std.specs.Prelude.{◌≡◌, ◌≢◌, ℕ, ◌<◌, ◌≤◌, List, length, None, Some};
ghost use Rattle.pf_base.specs.declared.asks.Reply.{Reply};
ghost use Rattle.pf_volume.specs.Volumes.{Extent, IsVolume};
ghost use Rattle.pf_paxos.specs.Journals.{Begins};
ghost use Rattle.pf_paxos.specs.BallotRuns.{At, Calls, anchor_turn_answered, ballot_turn};
ghost use Rattle.pf_journal.specs.declared.layouts.Layout.{Layout};
ghost use Rattle.pf_journal.specs.Layouts.{layout_of};
ghost use Rattle.pf_journal.specs.Sectors.{HasSpelling};
ghost use Rattle.pf_law_lists.specs.Journals.{BeginsAtRest};
ghost use Rattle.pf_mount.specs.Standing.{AnswersPort};
ghost use Rattle.pf_law_calls.specs.Doings.{HaveRegisters, IsDecidedIn, IsListOf, act_of, doings, journal_after, reply_of};
ghost use Rattle.pf_law_calls.specs.Lives.{AreShort, CanBe, OfBallot, MountTold, lives, tables_from};

/// Whatever any number of mounts over a layout hear, they are mounts of a journal over its anchors: each mount's list there is what its
/// own ballots told as decided, it stands behind as many positions, and its ballots at its position are those of the journal.
pub fn mounts_are_of_a_journal()
    ensures list { (layout : Layout) (v : Extent) (told : List MountTold) (m : ℕ) → CanBe layout v told → m < 16
        → (journal_after layout v told).list m ≡ (lives layout v told m).decided }
    ensures ballots { (layout : Layout) (v : Extent) (told : List MountTold) (m : ℕ) → CanBe layout v told → m < 16
        → (journal_after layout v told).mounts (lives layout v told m).mount.upto m ≡ (lives layout v told m).mount.position.ballot }
    ensures upto { (layout : Layout) (v : Extent) (told : List MountTold) (m : ℕ) → CanBe layout v told → m < 16
        → (lives layout v told m).mount.upto ≡ length (lives layout v told m).decided }
{}

/// Each mount has the layout with which it began, whatever is told.
pub fn mounts_keep_their_layout()
    ensures { (layout : Layout) (v : Extent) (told : List MountTold) (m : ℕ) → (lives layout v told m).mount.position.layout ≡ layout }
{}

/// What a mount hears at an anchor is what it asked there. Something waits there, and an answer to what a ballot asked is a turn of the
/// journal at the position of that ballot, also where the mount has left it.
pub fn answers_are_turns()
    ensures waits { (layout : Layout) (v : Extent) (told : List MountTold) (m anchor : ℕ) (reply : Reply) → CanBe layout v told → m < 16
        → anchor < length (layout_of layout).anchors → AnswersPort (lives layout v told m).mount anchor reply → (lives layout v told m).waits anchor ≢ None }
    ensures turns { (layout : Layout) (v : Extent) (told : List MountTold) (m anchor position : ℕ) (reply : Reply) → CanBe layout v told → m < 16
        → anchor < length (layout_of layout).anchors → AnswersPort (lives layout v told m).mount anchor reply
        → (lives layout v told m).waits anchor ≡ Some (OfBallot position)
        → ballot_turn ((journal_after layout v told).mounts position) (Calls m (At anchor (act_of reply))) ≡ anchor_turn_answered m anchor (reply_of reply) }
{}

/// The tables of each mount are those of a new volume after the transactions that its decided values spell, in their order.
pub fn tables_are_those_of_decisions()
    ensures { (layout : Layout) (v : Extent) (told : List MountTold) (m : ℕ) → CanBe layout v told → m < 16
        → (lives layout v told m).mount.files.tables ≡ tables_from v (lives layout v told m).decided }
{}

/// Where the blocks of the anchors are registers there is one list: of what two mounts have decided the shorter list begins the other, and
/// each mount's list begins every transaction list. So the tables of every mount come from the first transactions of one list.
pub fn mounts_over_anchors_share_one_list()
    ensures mounts { (layout : Layout) (v : Extent) (told : List MountTold) (m other : ℕ) → CanBe layout v told → HaveRegisters layout v told → m < 16
        → other < 16 → length (lives layout v told m).decided ≤ length (lives layout v told other).decided
        → Begins (lives layout v told m).decided (lives layout v told other).decided }
    ensures list { (layout : Layout) (v : Extent) (told : List MountTold) (m : ℕ) (list : List (List ℕ)) → CanBe layout v told → HaveRegisters layout v told
        → m < 16 → IsListOf layout v told list → Begins (lives layout v told m).decided list }
{}

/// The own block of each mount, which its ballots write, has a spelling as a sector, whatever the mounts hear, where the names of their calls
/// are short.
pub fn ballots_write_spelled_blocks()
    ensures { (layout : Layout) (v : Extent) (told : List MountTold) (m : ℕ) → IsVolume v → AreShort told
        → HasSpelling (lives layout v told m).mount.position.ballot.own }
{}

/// A mount begins a ballot, in the journal, only where none of its own runs at the position at which it stands.
pub fn ballots_begin_at_rest()
    ensures { (layout : Layout) (v : Extent) (told : List MountTold) → CanBe layout v told
        → BeginsAtRest (length (layout_of layout).anchors) (layout_of layout).quorum (doings layout v told) }
{}

/// Where ballots over a layout need all its anchors, and the anchors' blocks are registers, a transaction list ends at the first position
/// that is not decided.
pub fn whole_lists()
    ensures { (layout : Layout) (v : Extent) (told : List MountTold) (list : List (List ℕ)) (position : ℕ) (value : List ℕ)
        → (layout_of layout).quorum ≡ length (layout_of layout).anchors
        → CanBe layout v told → HaveRegisters layout v told → IsListOf layout v told list → length list ≤ position → IsDecidedIn layout v told position value
        → ⊥ }
{}
