//! Transactions to bytes.
ghost use Rattle.std.specs.Prelude.{◌≡◌, ◌+◌, ◌≤◌, ◌++◌, ◌∷◌, [], length};
ghost use Rattle.std.specs.Int.{w32, to_be_bytes};
ghost use Rattle.pf_txn.specs.Spelling.{CanSpell, FitChanges, FitsChange, spell_change, spell_changes, spell_txn};

use pf_base::Value;
use pf_tree::{Change, Txn};

/// The bytes of a transaction that has a spelling. This takes no memory.
pub fn spell(txn: &Txn) -> Value
    requires { CanSpell txn.now }
    ensures { result ≡ spell_txn txn.now }
{
    let changes = txn.changes.as_slice();
    let mut value = spell_head(txn.mount, txn.number, changes.len() as u8);
    put_changes(&mut value, changes);
    value
}

/// The bytes before the changes.
fn spell_head(mount: u8, number: u32, count: u8) -> Value
    ensures { result ≡ mount ∷ [] ++ to_be_bytes w32 number ++ count ∷ [] }
{
    let mut value = Value::empty();
    value.extend(&[mount]);
    value.extend(&number.to_be_bytes());
    value.extend(&[count]);
    value
}

/// Puts the bytes of changes at the end.
fn put_changes(value: &mut Value, changes: &[Change])
    requires room { length value.old + length (spell_changes changes.now) ≤ 400 }
    requires fits { FitChanges changes.now }
    ensures { value.new ≡ value.old ++ spell_changes changes.now }
{
    let Some((change, rest)) = changes.split_first() else {
        return;
    };
    put_change(value, change);
    put_changes(value, rest);
}

/// Puts the bytes of a change at the end.
fn put_change(value: &mut Value, change: &Change)
    requires room { length value.old + length (spell_change change.now) ≤ 400 }
    requires fits { FitsChange change.now }
    ensures { value.new ≡ value.old ++ spell_change change.now }
{
    match change {
        Change::SetInode { inode, kind, size } => {
            let i = inode.to_be_bytes();
            let z = size.to_be_bytes();
            value.extend(&[1, i[0], i[1], *kind, z[0], z[1], z[2], z[3]]);
        }
        Change::AddEntry {
            directory,
            inode,
            name,
        } => {
            let d = directory.to_be_bytes();
            let i = inode.to_be_bytes();
            value.extend(&[2, d[0], d[1], i[0], i[1], name.len() as u8]);
            value.extend(name.as_slice());
        }
        Change::DeleteEntry { directory, name } => {
            let d = directory.to_be_bytes();
            value.extend(&[3, d[0], d[1], name.len() as u8]);
            value.extend(name.as_slice());
        }
        Change::SetTag {
            block,
            inode,
            index,
        } => {
            let b = block.to_be_bytes();
            let i = inode.to_be_bytes();
            value.extend(&[4, b[0], b[1], i[0], i[1], *index]);
        }
    }
}
