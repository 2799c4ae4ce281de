//! Laws of the file data of mounts.
ghost use Rattle.std.specs.Prelude.{◌≡◌, ℕ, ◌<◌, ◌++◌, ◌∷◌, [], List, None, Option, Some, slice_get, take};
ghost use Rattle.pf_base.specs.declared.asks.Ask.{Ask as AskIs};
ghost use Rattle.pf_volume.specs.Volumes.{Extent};
ghost use Rattle.pf_tree.specs.Calls.{FileCall};
ghost use Rattle.pf_file_calls.specs.declared.answers.CallAnswer.{CallAnswer as AnswerIs};
ghost use Rattle.pf_law_plans.specs.Exchanges.{Exchange};
ghost use Rattle.pf_journal.specs.declared.layouts.Layout.{Layout};
ghost use Rattle.pf_journal.specs.Layouts.{layout_of};
ghost use Rattle.pf_mount.specs.Mounts.{MountIs};
ghost use Rattle.pf_mount.specs.declared.work.MountNext.TheVariants.{Done};
ghost use Rattle.pf_law_calls.specs.Doings.{HaveRegisters, IsListOf};
ghost use Rattle.pf_law_calls.specs.Lives.{Begins, CanBe, CanTake, Input, MountTold, decided_by, lives, mount_after, tables_from};
ghost use Rattle.pf_law_calls.specs.Answering.{next_by};
ghost use Rattle.pf_law_calls.specs.Exchanges.{exchanges, pends_after};
ghost use Rattle.pf_law_calls.specs.Trees.{calls_of};
ghost use Rattle.pf_law_calls.specs.Going.{GoOnSo, HasEndedSo, HaveGoneSoFar};
ghost use Rattle.pf_law_calls.specs.Since.{called, exchanges_since, pends, since_after};

/// A mount has the file data of its call go as they are planned, on the tables after the call's changes: with each input they go on so, be it
/// that the call starts, that an ask is put, or that one is answered at an anchor or at the port for file data. Where the call ends, it was
/// refused and asked for none, or they are whole. What the mount's ballots decide is in the list at its position, below which its tables are.
pub fn file_data_go_as_planned()
    ensures { (list : List (List ℕ)) (its : List Exchange) (last : Option AskIs) (x : MountIs) (input : Input) → CanTake x input
        → x.files.tables ≡ tables_from x.files.volume (take x.upto list)
        → ((value : List ℕ) → decided_by x input ≡ Some value → slice_get list x.upto ≡ Some value)
        → HaveGoneSoFar list its last x
        → GoOnSo list (since_after x last its input) (pends_after x last input) (called x input) (mount_after x input) (next_by x input) }
{}

/// Of mounts that share a list: at every moment, what a mount has asked and was answered at its port for file data since its last
/// call began has gone so far as planned. And where a call ends, it was refused and asked for none, or its file data went so to the end, on the
/// tables at the position of the list where its mount stands then.
pub fn file_data_went_as_planned()
    ensures far { (layout : Layout) (v : Extent) (told : List MountTold) (list : List (List ℕ))
        → CanBe layout v told → HaveRegisters layout v told → IsListOf layout v told list
        → (before after : List MountTold) (m : ℕ) → told ≡ before ++ after → m < 16
        → HaveGoneSoFar list (exchanges_since layout v before m) (pends layout v before m) (lives layout v before m).mount }
    ensures ended { (layout : Layout) (v : Extent) (told : List MountTold) (list : List (List ℕ))
        → CanBe layout v told → HaveRegisters layout v told → IsListOf layout v told list
        → (before after : List MountTold) (m : ℕ) (input : Input) (answer : AnswerIs)
        → told ≡ before ++ record { mount = m; input = input } ∷ after → next_by (lives layout v before m).mount input ≡ Some (Done answer)
        → let now = before ++ record { mount = m; input = input } ∷ [] in
        HasEndedSo list m v (layout_of layout).first (lives layout v now m).mount.upto (exchanges_since layout v now m)
        (called (lives layout v before m).mount input) answer }
{}

/// What a mount has asked and was answered at its port for file data, over all its calls, is this call by call: while no other call of the mount
/// has begun, what came since one began stands behind all that came before it. And where no call is pending, nothing comes until one begins.
pub fn data_exchanges_are_of_calls()
    ensures since { (layout : Layout) (v : Extent) (before mid : List MountTold) (m : ℕ) (call : FileCall) → calls_of mid m ≡ []
        → let now = before ++ record { mount = m; input = Begins call } ∷ mid in
        exchanges layout v now m ≡ exchanges layout v before m ++ exchanges_since layout v now m }
    ensures none { (layout : Layout) (v : Extent) (told : List MountTold) (list : List (List ℕ))
        → CanBe layout v told → HaveRegisters layout v told → IsListOf layout v told list
        → (before mid after : List MountTold) (m : ℕ) → told ≡ before ++ (mid ++ after)
        → (lives layout v before m).mount.files.pending ≡ None → calls_of mid m ≡ []
        → (exchanges layout v (before ++ mid) m ≡ exchanges layout v before m)
        × (exchanges_since layout v (before ++ mid) m ≡ exchanges_since layout v before m) }
{}
