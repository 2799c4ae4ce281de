//! Transactions that have a spelling.
ghost use Rattle.std.specs.Prelude.{◌≡◌, ◌↔◌, ◌≤◌, IsSome, IfSome, IsTrue, length};
ghost use Rattle.pf_txn.specs.Spelling.{CanSpell, FitChanges, FitsChange, spell_change, spell_changes, spell_txn};

use pf_base::Value;
use pf_tree::{Change, Txn};
use pf_txn::spell;

/// The most bytes of the changes of a transaction.
const MOST: u32 = 394;

/// The bytes of a transaction; `None` exactly where it has no spelling. This takes no memory.
pub fn spell_input(txn: &Txn) -> Option<Value>
    ensures can { IsSome result ↔ CanSpell txn.now }
    ensures value { IfSome result (λ value. value ≡ spell_txn txn.now) }
{
    if can_spell(txn) {
        Some(spell(txn))
    } else {
        None
    }
}

/// Whether a transaction has a spelling.
fn can_spell(txn: &Txn) -> bool
    ensures { IsTrue result ↔ CanSpell txn.now }
{
    let changes = txn.changes.as_slice();
    changes.len() <= 255 && fit_within(changes, MOST)
}

/// Whether all changes have a spelling, of so many bytes at most.
fn fit_within(changes: &[Change], room: u32) -> bool
    ensures { IsTrue result ↔ (FitChanges changes.now × (length (spell_changes changes.now) ≤ room)) }
{
    let Some((change, rest)) = changes.split_first() else {
        return true;
    };
    let size = size_of(change);
    if !fits(change) || size > room as usize {
        return false;
    }
    fit_within(rest, room - size as u32)
}

/// Whether a change has a spelling.
fn fits(change: &Change) -> bool
    ensures { IsTrue result ↔ FitsChange change.now }
{
    match change {
        Change::SetInode { kind, .. } => *kind <= 2,
        Change::AddEntry { name, .. } => name.len() <= 255,
        Change::DeleteEntry { name, .. } => name.len() <= 255,
        Change::SetTag { inode, index, .. } => *inode != 65535 || *index == 0,
    }
}

/// How many bytes the spelling of a change has, where its name is not longer than the greatest one.
#[tactic(auto, using(pf_txn::proofs::Sizes::length_change))]
fn size_of(change: &Change) -> usize
    ensures { FitsChange change.now → result ≡ length (spell_change change.now) }
{
    match change {
        Change::SetInode { .. } => 8,
        Change::AddEntry { name, .. } => 6 + name.len().min(255),
        Change::DeleteEntry { name, .. } => 4 + name.len().min(255),
        Change::SetTag { .. } => 6,
    }
}
