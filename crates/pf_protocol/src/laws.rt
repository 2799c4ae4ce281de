//! Laws of every history of a group: what was chosen stays, and the group is safe.
ghost use Rattle.std.specs.Prelude.{◌≡◌, ℕ, ◌<◌, ◌≤◌, ◌≢◌, List, [], ◌∷◌, ◌++◌, Some, slice_get};
ghost use Rattle.std.specs.FinMap as finite;
ghost use Rattle.pf_entry.specs.Ops.{Sector};
ghost use Rattle.pf_entry.specs.declared.ops.Op.{Op};
ghost use Rattle.pf_entry.specs.declared.ops.Op.TheVariants.{Noop};
ghost use Rattle.pf_entry.specs.declared.entries.Entry.{Entry};
ghost use Rattle.pf_entry.specs.declared.entries.Named.{Named};
ghost use Rattle.pf_entry.specs.Entries.{EntryIsNew};
ghost use Rattle.pf_entry.specs.Records.{Durable};
ghost use Rattle.pf_entry.specs.Voids.{IsVoid};
ghost use Rattle.pf_protocol.specs.Servers.{Setup, Server, Leader};
ghost use Rattle.pf_protocol.specs.Histories.{History, IsPrefix, replay, RunsAs, HasAccepted, IsProposal, IsChosen, IsTakenFrom};
ghost use Rattle.pf_protocol.specs.Kept.{MayHold, LeadsAs, Respects, KeepsName, IsChosenIn};
ghost use Rattle.pf_protocol.specs.Safety.{OneLeader, IsSafe};
ghost use Rattle.pf_protocol.specs.Groups.{Answered};
ghost use Rattle.pf_protocol.specs.Snapshots.{IsSnapshot};
ghost use Rattle.pf_protocol.specs.Fresh.{ReadIsFresh};
ghost use Rattle.pf_protocol.specs.Ports.{Submission, submitting, SubmissionIsAnswered, FollowsRule, ComesFrom, WasSubmitted, IsOrdered, IsOrderedBetween};
ghost use Rattle.pf_protocol.specs.Answers.{IsLegal};

/// In each term at most one server ever merges or serves.
pub fn one_leader_to_a_term()
    ensures { (setup : Setup) (history : History) → OneLeader setup history }
{}

/// A chosen op is the op of every later proposal of its slot. Each leader of a later term, whenever it leads, begins above the slot, and had it under
/// its checkpoint or proposed the op again, also a leader that has proposed nothing new. No start that a server ever holds
/// makes an entry void that may have the op. And no two servers ever held different entries of one slot and term.
pub fn chosen_ops_persist()
    ensures later { (setup : Setup) (history : History) (slot term : ℕ) (op : Op) → IsChosen setup history slot term op → (e : Entry)
        → IsProposal setup history e → e.slot ≡ slot → term ≤ e.term → e.op ≡ op }
    ensures leaders { (setup : Setup) (history : History) (slot term : ℕ) (op : Op) (earlier : History) (i : ℕ) (s : Server) (l : Leader)
        → IsChosen setup history slot term op → IsPrefix earlier history → RunsAs (replay setup earlier) i s → LeadsAs s l → term < s.durable.term
        → Respects setup history slot op s l }
    ensures not_void { (setup : Setup) (history : History) (slot term u : ℕ) (op : Op) (earlier : History) (i : ℕ) (d : Durable)
        → IsChosen setup history slot term op → IsPrefix earlier history → MayHold (replay setup earlier) i d → term ≤ u → IsVoid d.starts slot u → ⊥ }
    ensures one_entry { (setup : Setup) (history : History) (i j : ℕ) (a b : Entry) → HasAccepted setup history i a → HasAccepted setup history j b
        → a.slot ≡ b.slot → a.term ≡ b.term → a ≡ b }
{}

/// Where a new entry is chosen, its leader had an op in each slot that the entry names, of the range that it names, and
/// whatever is ever chosen in that slot is this op or a no-op.
pub fn named_slots_keep_their_op()
    ensures { (setup : Setup) (history : History) (slot term : ℕ) (op : Op) (c : IsChosen setup history slot term op) → EntryIsNew c.entry → (k : ℕ) (n : Named)
        → slice_get c.entry.look k ≡ Some n → KeepsName setup history c.entry n }
{}

/// Where a new entry is chosen, no leader of a later term takes an entry of an earlier term in a slot from that term's
/// first new slot on.
pub fn nothing_old_is_taken()
    ensures { (setup : Setup) (history : History) (slot term : ℕ) (op : Op) (c : IsChosen setup history slot term op) → EntryIsNew c.entry → (e from : Entry)
        → IsTakenFrom setup history e from → term < e.term → c.entry.first ≤ e.slot → term ≤ from.term }
{}

/// Where a leader proposed something new, each op that it merged is chosen, in a term not above its own. This outlives
/// the leader.
pub fn merged_slots_were_chosen()
    ensures { (setup : Setup) (history : History) (e m : Entry) → IsProposal setup history e → EntryIsNew e → IsProposal setup history m → m.term ≡ e.term
        → m.slot < e.first → IsChosenIn setup history m.slot m.term m.op }
{}

/// Every history is safe: committed ops agree, sectors are the applied ops in slot order, and what was acknowledged
/// is kept by each later leader.
pub fn every_history_is_safe()
    ensures { (setup : Setup) (history : History) → IsSafe setup history }
{}

/// A server's snapshot of a mark has in each sector what the greatest slot up to the mark that writes it wrote, and zeros
/// where none does, when it is taken and ever after: also where an op is chosen only later in a slot that the mark passed. The
/// mark was chosen. (The sectors of one point of the log, as in PolarFS; that a mark may pass a slot rests on the ranges of the
/// look-behind list.)
pub fn snapshots_hold_all_slots()
    ensures { (setup : Setup) (history earlier : History) (i : ℕ) (s : Server) (mark : ℕ) (sectors : List Sector) → IsPrefix earlier history
        → RunsAs (replay setup earlier) i s → finite.get s.snapshots mark ≡ Some sectors → IsSnapshot setup history mark sectors }
{}

/// Reads are fresh. A read is answered by an event after the one that took it up. The answer shows the slots that its server
/// has applied after that event, and the range of the sectors that it has then: what these slots leave in their order. It has
/// each slot that overlaps its range and was acknowledged before the read was taken up, and each such slot of every answer
/// given by then. (A leader asks whether it still leads before it answers, as a read index in Raft does.)
pub fn reads_are_fresh()
    ensures { (setup : Setup) (history : History) (k : ℕ) (a : Answered) → slice_get (replay setup history).answered k ≡ Some a → ReadIsFresh setup history a }
{}

/// The writes of a port that follows its rule are chosen in the order in which it asked them: each copy of a write is chosen
/// below each copy of one that this port asked later, so no slot is of two writes, though a write may have been handed to
/// several leaders and each of its copies may turn up. A copy whose step was cut off counts where a restart finds its record.
pub fn ports_are_ordered()
    ensures { (setup : Setup) (history : History) (port : List Submission) → FollowsRule setup history port → IsOrdered setup history port }
{}

/// Where a write of a port was acknowledged before another port handed on a write of its own, each copy of the first is chosen
/// below each copy of the second, to whatever leader the second port handed it.
pub fn ports_follow_each_other()
    ensures { (setup : Setup) (history : History) (port : List Submission) → FollowsRule setup history port → IsOrderedBetween setup history port }
{}

/// In a legal history what is chosen in the slot of an acknowledged submission comes from this submission.
pub fn acknowledged_writes_are_copies()
    ensures { (setup : Setup) (history : History) (a : Submission) → IsLegal setup history → IsPrefix (a.before ++ submitting a ∷ []) history
        → (x : SubmissionIsAnswered setup history a) → ComesFrom setup history x.target.leader.next a }
{}

/// Each chosen op but a no-op is that of some submission, and comes from it. So each slot that an answered read shows is one.
pub fn chosen_writes_were_submitted()
    ensures { (setup : Setup) (history : History) (slot term : ℕ) (op : Op) → IsChosen setup history slot term op → op ≢ Noop
        → WasSubmitted setup history slot op }
{}
