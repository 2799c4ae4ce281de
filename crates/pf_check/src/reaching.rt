//! Which inodes are reached from inode 0.
ghost use Rattle.std.specs.Prelude.{◌≡◌, ◌<◌, ℕ, false, IfOk, OnOk, get_or, length, replicate};
ghost use Rattle.pf_tree_tables.specs.declared.tables.DirectoryEntry.{DirectoryEntry as EntryIs};
ghost use Rattle.pf_check.specs.Walks.{IsSeen, front_of, front_reaches, reach_all};

use crate::tables::{NUMBERS, Tables};
use pf_base::NoMemory;
use pf_tree_tables::DirectoryEntry;
use std::alloc::Global;

/// Which inodes are seen on the way from inode 0. Each of them is queued once, and its entries are gone through once.
pub(crate) fn reached_inodes(alloc: Global, tables: &Tables) -> Result<Vec<bool>, NoMemory>
    ensures { IfOk result (λ seen. IsSeen tables.now seen.items) }
{
    let mut seen = new_seen(alloc)?;
    let mut queue = Vec::new(alloc);
    reach(&mut seen, &mut queue, 0)?;
    for number in 0..tables.numbers() {
        let passed = number as usize;
        if passed >= queue.len() {
            return Ok(seen);
        }
        let directory = queue[passed];
        reach_all(&mut seen, &mut queue, tables.names_in(directory))?;
    }
    Ok(seen)
}

/// No seen.
fn new_seen(alloc: Global) -> Result<Vec<bool>, NoMemory>
    ensures { IfOk result (λ seen. seen.items ≡ replicate 65536 false) }
{
    Ok(vec![in alloc; false; NUMBERS as usize]?)
}

/// Seen and queues the inodes that entries name.
fn reach_all(
    seen: &mut Vec<bool>,
    queue: &mut Vec<u16>,
    rows: &[DirectoryEntry],
) -> Result<(), NoMemory>
    requires { length seen.old.items ≡ 65536 }
    ensures front { OnOk result (front_of seen.new.items queue.new.items ≡ reach_all (front_of seen.old.items queue.old.items) rows.now) }
    ensures places { length seen.new.items ≡ 65536 }
    ensures low { OnOk result ((k : ℕ) (d : EntryIs) → k < length rows.now → (get_or rows.now k d).inode < 65536) }
{
    for row in rows {
        reach(seen, queue, row.inode)?;
    }
    Ok(())
}

/// Seen and queues an inode that is not seen.
fn reach(seen: &mut Vec<bool>, queue: &mut Vec<u16>, inode: u16) -> Result<(), NoMemory>
    requires { length seen.old.items ≡ 65536 }
    ensures front { OnOk result (front_of seen.new.items queue.new.items ≡ front_reaches (front_of seen.old.items queue.old.items) inode) }
    ensures places { length seen.new.items ≡ 65536 }
    ensures low { inode < 65536 }
{
    let place = inode as usize;
    if !seen[place] {
        queue.push(inode)?;
        seen[place] = true;
    }
    Ok(())
}
