//! What the writes and reads of a sector are to those who asked them.
ghost use Rattle.std.specs.Prelude.{◌≡◌, ℕ, ◌<◌, true, List, [], ◌∷◌, ◌++◌, Some, slice_get};
ghost use Rattle.pf_entry.specs.Ops.{Sector, writes};
ghost use Rattle.pf_entry.specs.declared.ops.Op.{Op};
ghost use Rattle.pf_protocol.specs.declared.answers.Answer.TheVariants.{Slot};
ghost use Rattle.pf_protocol.specs.Answers.{IsLegal};
ghost use Rattle.pf_protocol.specs.Servers.{Setup};
ghost use Rattle.pf_protocol.specs.Groups.{Acked, Answered};
ghost use Rattle.pf_protocol.specs.Histories.{History, IsPrefix, replay, IsChosen};
ghost use Rattle.pf_protocol.specs.Ports.{Submission, submitting, SubmissionIsAnswered, FollowsRule};
ghost use Rattle.pf_law_registers.specs.Orders.{Member, IsOrder, IsWholeSector};
ghost use Rattle.pf_law_registers.specs.Sectors.{ReadGives, SectorRegister, IsCopyAt, IsInPortsOrder, IsInOrderBetween, SubmissionIsPlaced, ShowsTheSame};
ghost use Rattle.pf_law_registers.specs.Firsts.{IsFirstAcked, ComeFirst};
ghost use Rattle.pf_law_registers.specs.Moved.{IsWriteEndedBefore, IsMove, MovedRegister, IsOneWriter, MovedOwnRegister};
ghost use Rattle.pf_law_registers.specs.Alone.{IsAlone, OwnRegister};

/// The writes of a sector, of which an op is chosen at some moment of the history, stand in one list in the order of their
/// slots. Each answered read gives the sector what a first part of this list leaves, zeros if that is empty: the writes that
/// the answering server had applied. That part has each write that was acknowledged before the read was taken up, and each
/// that a read showed which was answered before that; and each of its writes comes from a submission that was made before
/// the read was answered.
pub fn sectors_are_registers()
    ensures { (setup : Setup) (history : History) (x : ℕ) → SectorRegister setup history x }
{}

/// The writes of a sector are one list.
pub fn a_sector_has_one_order()
    ensures { (setup : Setup) (history : History) (x : ℕ) (a b : List Member) → IsOrder setup history x a → IsOrder setup history x b → a ≡ b }
{}

/// In a legal history each chosen op that writes a sector gives it 512 bytes, so it stands in the sector's list.
pub fn legal_writes_are_whole()
    ensures { (setup : Setup) (history : History) (slot term : ℕ) (op : Op) (x : ℕ) → IsLegal setup history → IsChosen setup history slot term op
        → writes op x ≡ true → IsWholeSector op x }
{}

/// What was acknowledged or answered stays in its place.
pub fn answers_stay()
    ensures acked { (setup : Setup) (earlier history : History) (k : ℕ) (a : Acked) → IsPrefix earlier history
        → slice_get (replay setup earlier).acked k ≡ Some a → slice_get (replay setup history).acked k ≡ Some a }
    ensures answered { (setup : Setup) (earlier history : History) (k : ℕ) (a : Answered) → IsPrefix earlier history
        → slice_get (replay setup earlier).answered k ≡ Some a → slice_get (replay setup history).answered k ≡ Some a }
{}

/// A read shows the same writes when it is answered and ever after: what is chosen later stands behind them.
pub fn reads_show_the_same()
    ensures { (setup : Setup) (earlier history : History) (x : ℕ) (old : SectorRegister setup earlier x) (new : SectorRegister setup history x) (k : ℕ)
        (a : Answered) → IsPrefix earlier history → slice_get (replay setup earlier).answered k ≡ Some a → ShowsTheSame setup earlier history x old new a }
{}

/// Along the list of a sector the copies of the writes of a port that follows its rule stand in the order in which it asked
/// them, and no place of the list is of two of them.
pub fn copies_stand_in_order()
    ensures { (setup : Setup) (history : History) (x : ℕ) (order : List Member) (port : List Submission) → IsOrder setup history x order
        → FollowsRule setup history port → IsInPortsOrder setup history port order }
{}

/// Where a write of a port that follows its rule was acknowledged before another port handed on a write of its own, each copy
/// of the first stands before each copy of the second.
pub fn ports_stand_in_order()
    ensures { (setup : Setup) (history : History) (x : ℕ) (order : List Member) (port : List Submission) → IsOrder setup history x order
        → FollowsRule setup history port → IsInOrderBetween setup history port order }
{}

/// Where each other writer of the sector began after all writes of this port were acknowledged, the port's copies have so many
/// first places of the list, and no later ones.
pub fn first_writers_come_first()
    ensures { (setup : Setup) (history : History) (x : ℕ) (order : List Member) (port : List Submission) → IsOrder setup history x order
        → FollowsRule setup history port → IsFirstAcked setup history port x → (made : ℕ) × ComeFirst setup history order port made }
{}

/// A read that is taken up after the last submission of a port's write was acknowledged shows each copy of this write.
pub fn acknowledged_writes_are_shown()
    ensures { (setup : Setup) (history : History) (x : ℕ) (r : SectorRegister setup history x) (port : List Submission) → FollowsRule setup history port
        → (place k : ℕ) (a : Submission) (read : Answered) → slice_get port k ≡ Some a → IsCopyAt setup history r.order place a
        → IsWriteEndedBefore setup history port x a.write read → place < r.shown read }
{}

/// A sector that was moved to another group is a register again: where a port was the first to write it there, with the bytes that
/// a last read in the old group gave, the writes that this read shows, and after them the new ones without the port's, are
/// one list. It serves the old group's reads that were answered before the last one was taken up, and the new group's that were
/// taken up after the port's writes were acknowledged.
pub fn moved_sectors_are_registers()
    ensures { (old_setup : Setup) (old_history : History) (new_setup : Setup) (new_history : History) (x : ℕ) (old : SectorRegister old_setup old_history x)
        (new : SectorRegister new_setup new_history x) (port : List Submission) (last : Answered) (bytes : Sector)
        → ReadGives old_setup old_history x last bytes → IsMove new_setup new_history x new port bytes
        → MovedRegister old_setup old_history new_setup new_history x old new port last }
{}

/// In a legal history, where a submission was answered with a slot and its write was acknowledged, that slot stands among the
/// acknowledged ones, and what is chosen there comes from this submission.
pub fn acknowledged_writes_have_places()
    ensures { (setup : Setup) (history now : History) (a : Submission) (slot : ℕ) → IsLegal setup history → IsPrefix (a.before ++ submitting a ∷ []) history
        → IsPrefix now history → a.answer ≡ Slot slot → SubmissionIsAnswered setup now a → SubmissionIsPlaced setup history now slot a }
{}

/// A sector that one port alone writes: each read gives the bytes of one of its writes, or zeros where it shows none. It
/// is not below a write that was acknowledged before the read was taken up, nor below one that a read showed which was answered
/// before that, and it was asked before the answer.
pub fn lone_writers_have_registers()
    ensures { (setup : Setup) (history : History) (port : List Submission) (x : ℕ) → FollowsRule setup history port → IsAlone setup history port x
        → OwnRegister setup history port x }
{}

/// A sector that one alone writes, before it was moved and after: each read of the moved register gives the bytes of one of the
/// writes, or zeros where it shows none, as above.
pub fn moved_lone_writers_have_registers()
    ensures { (old_setup : Setup) (old_history : History) (new_setup : Setup) (new_history : History) (x : ℕ) (new : SectorRegister new_setup new_history x)
        (mover old_port new_port : List Submission) (last : Answered) (bytes : Sector) → ReadGives old_setup old_history x last bytes
        → IsMove new_setup new_history x new mover bytes → IsOneWriter old_setup old_history new_setup new_history x mover old_port new_port
        → MovedOwnRegister old_setup old_history new_setup new_history x mover old_port new_port last }
{}
