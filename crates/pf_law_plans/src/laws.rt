//! Laws of planned calls.
ghost use Rattle.std.specs.Prelude.{◌≡◌, ℕ, ◌<◌, ◌≤◌, ◌^◌, List, Some, length};
ghost use Rattle.pf_base.specs.declared.calls.Call.{Call as CallIs};
ghost use Rattle.pf_volume.specs.Volumes.{Extent};
ghost use Rattle.pf_layout.specs.Calls.{IsReadAs};
ghost use Rattle.pf_tree_tables.specs.declared.changes.Txn.{Txn as TxnIs};
ghost use Rattle.pf_tree_tables.specs.Tables.{Tables as TablesIs, applied};
ghost use Rattle.pf_tree.specs.Calls.{FileCall};
ghost use Rattle.pf_tree.specs.Standing.{IsCall, TablesStandFor};
ghost use Rattle.pf_tree.specs.Trees.{Data, Tree as TreeIs};
ghost use Rattle.pf_txn.specs.Reading.{txn_in};
ghost use Rattle.pf_txn.specs.Spelling.{spell_txn};
ghost use Rattle.pf_file_calls.specs.Calls.{planned};
ghost use Rattle.pf_file_calls.specs.declared.calls.Pending.{Pending as PendingIs};
ghost use Rattle.pf_file_calls.specs.declared.calls.Planned.TheVariants.{Proposes};
ghost use Rattle.pf_law_plans.specs.Numbered.{tree_with};
ghost use Rattle.pf_law_plans.specs.Spelled.{CanBeSpelled};

/// A call that is read of words can be spelled.
pub fn calls_of_words_can_be_spelled()
    ensures { (words : CallIs (List ℕ)) (call : FileCall) → IsReadAs words call → CanBeSpelled call }
{}

/// The transaction that a pending call plans names the call. Where the tables stand for a tree, they stand for the tree after the call once it is
/// applied. And where the call can be spelled, by a mount and a number that have a spelling, the transaction is read again of its spelling.
pub fn plans_are_of_their_calls()
    ensures names { (m : ℕ) (v : Extent) (d : Data) (t : TablesIs) (p : PendingIs) (txn : TxnIs) → planned m v d t p ≡ Proposes txn
        → (txn.mount ≡ m) × (txn.number ≡ p.number) }
    ensures follows { (m : ℕ) (v : Extent) (d : Data) (t : TablesIs) (p : PendingIs) (txn : TxnIs) (tree : TreeIs) → TablesStandFor d t tree → IsCall p.call
        → planned m v d t p ≡ Proposes txn → TablesStandFor d (applied t txn.changes) (tree_with d tree (Some p.call)) }
    ensures again { (m : ℕ) (v : Extent) (d : Data) (t : TablesIs) (p : PendingIs) (txn : TxnIs) (tree : TreeIs) → TablesStandFor d t tree
        → length t.tags ≤ 4096 → m < 16 → p.number < 2 ^ 32 → CanBeSpelled p.call → planned m v d t p ≡ Proposes txn → txn_in (spell_txn txn) ≡ Some txn }
{}
