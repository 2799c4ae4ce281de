//! Rows that ascend.
ghost use Rattle.std.specs.Prelude.{◌≡◌, ℕ, map};
ghost use Rattle.pf_entry.specs.Tables.{ascends};

use pf_entry::{Entry, Named, Start};

/// A row of a list that ascends by its key.
pub(crate) trait Keyed {
    ghost key: { Self → ℕ };

    fn key(&self) -> u64
        ensures { result ≡ key self.now };
}

impl Keyed for Named {
    ghost key = { λ n. n.slot };

    fn key(&self) -> u64 {
        self.slot
    }
}

impl Keyed for Entry {
    ghost key = { λ e. e.slot };

    fn key(&self) -> u64 {
        self.slot
    }
}

impl Keyed for Start {
    ghost key = { λ row. row.term };

    fn key(&self) -> u64 {
        self.term
    }
}

impl Keyed for u64 {
    ghost key = { λ n. n };

    fn key(&self) -> u64 {
        *self
    }
}

/// Whether each row's key is above that of the row before it.
pub(crate) fn ascend<K: Keyed>(rows: &[K]) -> bool
    ensures { result ≡ ascends (map K.key rows.now) }
{
    let mut last = None;
    for row in rows {
        let key = row.key();
        if last.is_some_and(|before| key <= before) {
            return false;
        }
        last = Some(key);
    }
    true
}
