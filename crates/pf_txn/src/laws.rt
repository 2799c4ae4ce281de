//! Laws of transactions as bytes.
ghost use Rattle.std.specs.Prelude.{◌≡◌, ℕ, List, Some};
ghost use Rattle.pf_tree_tables.specs.declared.changes.Txn.{Txn};
ghost use Rattle.pf_txn.specs.Spelling.{CanSpell, spell_txn};
ghost use Rattle.pf_txn.specs.Fields.{IsTyped};
ghost use Rattle.pf_txn.specs.Reading.{IsTxnSpelling, ReadsTxn, txn_in};

/// What is read of a transaction's spelling is the transaction. Whatever is read of a list is the one whose spelling it is, and
/// nothing is read exactly where there is none.
pub fn spelled_transactions_are_read()
    ensures spelled { (t : Txn) → CanSpell t → IsTyped t → txn_in (spell_txn t) ≡ Some t }
    ensures found { (bytes : List ℕ) (t : Txn) → txn_in bytes ≡ Some t → IsTxnSpelling t bytes }
    ensures reads { (bytes : List ℕ) → ReadsTxn bytes (txn_in bytes) }
{}

/// No two transactions have one spelling.
pub fn transactions_tell_themselves()
    ensures { (t u : Txn) → CanSpell t → IsTyped t → CanSpell u → IsTyped u → spell_txn t ≡ spell_txn u → t ≡ u }
{}
