//! Laws of the position at which a call of a mount over a layout is planned.
ghost use Rattle.std.specs.Prelude.{◌≡◌, ℕ, ◌<◌, ◌≤◌, ◌++◌, List, ◌∷◌, Some, slice_get};
ghost use Rattle.pf_volume.specs.Volumes.{Extent};
ghost use Rattle.pf_tree_tables.specs.declared.changes.Txn.{Txn as TxnIs};
ghost use Rattle.pf_tree.specs.Calls.{FileCall};
ghost use Rattle.pf_txn.specs.Reading.{txn_in};
ghost use Rattle.pf_journal.specs.declared.layouts.Layout.{Layout};
ghost use Rattle.pf_law_calls.specs.Doings.{HaveRegisters, IsListOf};
ghost use Rattle.pf_law_calls.specs.Lives.{Begins, CanBe, MountTold, lives};
ghost use Rattle.pf_law_calls.specs.Trees.{AreFewCalls};
ghost use Rattle.pf_law_calls.specs.Late.{CallHasEnded, IsPlanned};

/// Once a call has been planned, its mount stands no lower than any mount stood as the call began, since two quorums meet.
pub fn calls_are_planned_late()
    ensures { (layout : Layout) (v : Extent) (told : List MountTold) → CanBe layout v told → HaveRegisters layout v told
        → (before mid after : List MountTold) (m : ℕ) (call : FileCall) → told ≡ before ++ record { mount = m; input = Begins call } ∷ (mid ++ after)
        → IsPlanned (lives layout v (before ++ record { mount = m; input = Begins call } ∷ mid) m).mount.task.work → (n : ℕ) → n < 16
        → (lives layout v before n).mount.upto ≤ (lives layout v (before ++ record { mount = m; input = Begins call } ∷ mid) m).mount.upto }
{}

/// Where a call of a mount has ended, the mount stands behind each transaction of the list that is of this call.
pub fn ended_calls_are_below()
    ensures { (layout : Layout) (v : Extent) (told : List MountTold) (list : List (List ℕ)) → CanBe layout v told → HaveRegisters layout v told
        → IsListOf layout v told list → AreFewCalls told → (first rest : List MountTold) (n : ℕ) → told ≡ first ++ rest → n < 16
        → (position : ℕ) (value : List ℕ) (txn : TxnIs) → slice_get list position ≡ Some value → txn_in value ≡ Some txn → txn.mount ≡ n
        → CallHasEnded (lives layout v first n).mount txn.number → position < (lives layout v first n).mount.upto }
{}

/// A call that begins after another one has ended, of the same mount or of any other, is planned behind each transaction of that one. So the
/// position of a call's plan is at least the number of transactions whose calls had ended before it began.
pub fn calls_see_what_ended()
    ensures { (layout : Layout) (v : Extent) (told : List MountTold) (list : List (List ℕ)) → CanBe layout v told → HaveRegisters layout v told
        → IsListOf layout v told list → AreFewCalls told → (first rest mid after : List MountTold) (n m : ℕ) (call : FileCall)
        → told ≡ (first ++ rest) ++ record { mount = m; input = Begins call } ∷ (mid ++ after)
        → IsPlanned (lives layout v ((first ++ rest) ++ record { mount = m; input = Begins call } ∷ mid) m).mount.task.work → n < 16
        → (position : ℕ) (value : List ℕ) (txn : TxnIs) → slice_get list position ≡ Some value → txn_in value ≡ Some txn → txn.mount ≡ n
        → CallHasEnded (lives layout v first n).mount txn.number → position < (lives layout v
        ((first ++ rest) ++ record { mount = m; input = Begins call } ∷ mid) m).mount.upto }
{}
