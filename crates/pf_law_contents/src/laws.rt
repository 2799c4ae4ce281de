//! Laws of what is in files.
ghost use Rattle.std.specs.Prelude.{◌≡◌, ◌⊎◌, Bool, ℕ, ◌<◌, ◌++◌, ◌∷◌, [], List, None, Some};
ghost use Rattle.pf_base.specs.Asks.{Answers};
ghost use Rattle.pf_base.specs.declared.asks.Ask.{Ask as AskIs};
ghost use Rattle.pf_base.specs.declared.asks.Reply.{Reply as ReplyIs};
ghost use Rattle.pf_base.specs.declared.calls.Call.TheVariants.{Read};
ghost use Rattle.pf_volume.specs.Volumes.{Extent};
ghost use Rattle.pf_tree_tables.specs.Names.{Path};
ghost use Rattle.pf_tree_tables.specs.Tables.{Tables as TablesIs, new_tables};
ghost use Rattle.pf_tree.specs.Standing.{TablesStandFor};
ghost use Rattle.pf_tree.specs.Trees.{Data, File, Tree as TreeIs, at, refusal, size_at, tree_sight};
ghost use Rattle.pf_tree.specs.Calls.{FileCall};
ghost use Rattle.pf_file_calls.specs.Calls.{file_of_call};
ghost use Rattle.pf_file_calls.specs.Moving.{data_moves, moves_on};
ghost use Rattle.pf_file_calls.specs.declared.answers.CallAnswer.{CallAnswer as CallAnswerIs};
ghost use Rattle.pf_file_calls.specs.declared.moving.Moved.{Moved as MovedIs};
ghost use Rattle.pf_file_calls.specs.declared.moving.Moved.TheVariants.{Asks, Ends};
ghost use Rattle.pf_file_calls.specs.declared.moving.DataMoving.{DataMoving as MovingIs};
ghost use Rattle.pf_file_calls.specs.declared.calls.Pending.{Pending as PendingIs};
ghost use Rattle.pf_law_positions.specs.Deeds.{Deed, Groups};
ghost use Rattle.pf_law_plans.specs.Exchanges.{Exchange};
ghost use Rattle.pf_law_plans.specs.Numbered.{tree_with};
ghost use Rattle.pf_law_contents.specs.Contents.{Contents, contents_after, contents_with};
ghost use Rattle.pf_law_contents.specs.Going.{AreCalls, CallAsks, GoOneByOne, IsReadOf, IsRefusal, Went, all_zeros, done_of, exchanges_of, tree_of};
ghost use Rattle.pf_law_contents.specs.Planned.{AreAllCalls, ArePlannedInTurn, IsVirtualRun, PlannedCall};
ghost use Rattle.pf_law_contents.specs.Serial.{AreSerial, AreServed, IsPut};
ghost use Rattle.pf_law_contents.specs.Stored.{AreHeld, AreSo, GoesSo, DataGoesTo, Stored, TellStored, stored_after};

/// A read of a file whose bytes are stored gives them, and stores nothing.
pub fn reads_give_what_is_stored()
    ensures { (v : Extent) (d : Data) (t : TablesIs) (tree : TreeIs) (s : Stored) (c : Contents) → TablesStandFor d t tree → AreHeld v s tree c
        → (p : Path) (size : ℕ) (blocks : List ℕ) → at tree p ≡ Some (File size blocks) → (offset count : ℕ) (came : List Exchange) (answer : CallAnswerIs)
        → TellStored s came → GoesSo v t (data_moves v t size (Read p offset count)) came answer
        → IsReadOf tree c p offset count answer × (stored_after s came ≡ s) }
{}

/// Where the bytes of files are stored, they are so after a call that the tree does not refuse, once its file data have gone on tables that stand
/// for the tree after it: those of its own file as it changes them, and all others as before.
pub fn calls_store_the_contents()
    ensures { (v : Extent) → 0 < v.sectors → (d : Data) (before t : TablesIs) (tree : TreeIs) (s : Stored) (c : Contents)
        → TablesStandFor d before tree → AreHeld v s tree c → (came : List Exchange) (answer : CallAnswerIs) → TellStored s came
        → (call : FileCall) → refusal (tree_sight d tree) call ≡ None → TablesStandFor d t (tree_with d tree (Some call))
        → GoesSo v t (data_moves v t (size_at (at tree (file_of_call call))) call) came answer
        → AreHeld v (stored_after s came) (tree_with d tree (Some call)) (contents_with call c) }
{}

/// Where calls go one at a time on a new volume, of whatever mounts, and each read of a block is answered what was written there last, or zeros,
/// each read of a file is refused or gives its contents: the bytes that the calls before it which were not refused have left in it, one after
/// another, and zeros where none has put any. So it is where ports ask for the blocks one at a time of chunks that are served through all moves,
/// each by groups of its own.
pub fn reads_give_the_contents()
    ensures kept { (v : Extent) → 0 < v.sectors → (d : Data) (calls : List Went) (t : TablesIs)
        → AreCalls calls → GoOneByOne v d (new_tables d.blocks) calls t → TellStored all_zeros (exchanges_of calls)
        → AreSo v d t (stored_after all_zeros (exchanges_of calls)) (tree_of d (done_of calls)) (contents_after (done_of calls)) }
    ensures reads { (v : Extent) → 0 < v.sectors → (d : Data) (calls : List Went) (t next : TablesIs)
        → AreCalls calls → GoOneByOne v d (new_tables d.blocks) calls t
        → (m : ℕ) (call : PendingIs) (p : Path) (offset count : ℕ) (came : List Exchange) (answer : CallAnswerIs)
        → call.call ≡ Read p offset count → CallAsks v d m call t next came answer → TellStored all_zeros (exchanges_of calls ++ came)
        → IsRefusal answer ⊎ IsReadOf (tree_of d (done_of calls)) (contents_after (done_of calls)) p offset count answer }
    ensures ports { (v : Extent) → 0 < v.sectors → (d : Data) (is_data : (chunk piece : ℕ) → Bool)
        → (groups : (chunk : ℕ) → Groups) (deeds : (chunk : ℕ) → List Deed) → AreServed is_data groups deeds
        → (calls : List Went) (t next : TablesIs) → AreCalls calls → GoOneByOne v d (new_tables d.blocks) calls t
        → (m : ℕ) (call : PendingIs) (p : Path) (offset count : ℕ) (came : List Exchange) (answer : CallAnswerIs)
        → call.call ≡ Read p offset count → CallAsks v d m call t next came answer
        → (end : ℕ) → AreSerial is_data deeds 0 (exchanges_of calls ++ came) end
        → IsRefusal answer ⊎ IsReadOf (tree_of d (done_of calls)) (contents_after (done_of calls)) p offset count answer }
{}

/// File data go step by step: with each answered ask they have gone one further, and what they have gone to an end is a whole.
pub fn file_data_go_step_by_step()
    ensures goes { (v : Extent) (t : TablesIs) (first : MovedIs) (came : List Exchange) (ask : AskIs) (moving : MovingIs) (reply : ReplyIs)
        → DataGoesTo v t first came (Asks ask moving) → Answers ask reply
        → DataGoesTo v t first (came ++ (ask, reply) ∷ []) (moves_on v t moving reply) }
    ensures ends { (v : Extent) (t : TablesIs) (first : MovedIs) (came : List Exchange) (answer : CallAnswerIs)
        → DataGoesTo v t first came (Ends answer) → GoesSo v t first came answer }
{}

/// Where pieces of eight sectors are asked for one at a time, by whomever, each is answered what is stored: a read of one brings what was written
/// there last, or zeros; through any number of moves of their chunks. And what is stored at the end is what was put last.
pub fn serial_exchanges_tell_what_is_stored()
    ensures { (is_data : (chunk piece : ℕ) → Bool) (deeds : (chunk : ℕ) → List Deed) (groups : (chunk : ℕ) → Groups)
        → AreServed is_data groups deeds → (came : List Exchange) (end : ℕ) → AreSerial is_data deeds 0 came end
        → TellStored all_zeros came × IsPut is_data deeds (stored_after all_zeros came) end }
{}

/// Calls that are planned on a new volume one after another, each on the tables that the one before it leaves, could also go one by one, their
/// file data too: none is then refused, and each read of a block is answered what was written there last, or zeros.
pub fn planned_calls_have_a_virtual_run()
    ensures { (v : Extent) (d : Data) (calls : List PlannedCall) (t : TablesIs)
        → AreAllCalls calls → ArePlannedInTurn v d (new_tables d.blocks) calls t → IsVirtualRun v d calls t }
{}
