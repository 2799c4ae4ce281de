//! How often each inode is named.
ghost use Rattle.std.specs.Prelude.{◌≡◌, IfOk, length, replicate};
ghost use Rattle.pf_check.specs.Walks.{BlocksAreCounted, count_more, counted};

use crate::tables::{NUMBERS, Tables};
use pf_base::NoMemory;
use pf_tree_tables::DirectoryEntry;
use std::alloc::Global;

/// How many entries name each inode; 2 stands for two and more.
pub(crate) fn count_names(alloc: Global, tables: &Tables) -> Result<Vec<u8>, NoMemory>
    ensures { IfOk result (λ counts. BlocksAreCounted tables.now counts.items) }
{
    let mut counts = no_counts(alloc)?;
    for number in 0..tables.numbers() {
        count_rows(&mut counts, tables.names_in(number as u16));
    }
    Ok(counts)
}

/// A count of 0 for each inode.
fn no_counts(alloc: Global) -> Result<Vec<u8>, NoMemory>
    ensures { IfOk result (λ counts. counts.items ≡ replicate 65536 0) }
{
    Ok(vec![in alloc; 0; NUMBERS as usize]?)
}

/// Counts the entries of a directory.
fn count_rows(counts: &mut Vec<u8>, rows: &[DirectoryEntry])
    requires { length counts.old.items ≡ 65536 }
    ensures counts { counts.new.items ≡ counted counts.old.items rows.now }
    ensures places { length counts.new.items ≡ 65536 }
{
    for row in rows {
        count_one(counts, row.inode);
    }
}

/// Counts one entry more that names the inode.
fn count_one(counts: &mut Vec<u8>, inode: u16)
    requires { length counts.old.items ≡ 65536 }
    ensures counts { counts.new.items ≡ count_more counts.old.items inode }
    ensures places { length counts.new.items ≡ 65536 }
{
    let place = inode as usize;
    let count = counts[place];
    counts[place] = if count < 2 { count + 1 } else { 2 };
}
