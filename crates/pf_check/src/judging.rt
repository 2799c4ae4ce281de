//! Whether tables stand for a tree.
ghost use Rattle.std.specs.Prelude.{◌≡◌, ◌≤◌, ◌<◌, IfOk, MatchOption, length, is_some, count_by};
ghost use Rattle.std.specs.Bool.{MatchBool};
ghost use Rattle.pf_tree.specs.Trees.{Tree};
ghost use Rattle.pf_check.specs.Raw.{IsRaw};
ghost use Rattle.pf_check.specs.Kinds.{AllKeep, IsLeastShown, KeepsRule, KindShows};
ghost use Rattle.pf_check.specs.Standing.{StandsAs};
ghost use Rattle.pf_check.specs.Verdicts.{AllKeepBelow, IsRight};
ghost use Rattle.pf_check.specs.Walks.{IsWalked};
ghost use Rattle.pf_check.specs.declared.judging.Verdict.TheVariants.{Clean as IsClean};

use crate::naming::count_names;
use crate::reaching::reached_inodes;
use crate::rules::{
    has_gap, has_stray, has_stray_tag, is_directory, is_lost, is_misnamed, is_missized,
};
use crate::tables::Tables;
use crate::tagging::first_blocks;
use pf_base::NoMemory;
use std::alloc::Global;

/// What is found in tables.
#[derive(Clone, Copy, Debug, PartialEq, Eq)]
pub enum Verdict {
    /// They stand for a tree of so many paths.
    Clean(u32),
    /// The least kind of what is wrong, and the least inode, directory or block that shows it.
    Broken(u8, u16),
}

/// What one walk over tables finds.
#[derive(Drop)]
struct Walked {
    names: Vec<u8>,
    reached: Vec<bool>,
    firsts: Vec<Option<u16>>,
}

/// Whether tables stand for a tree of a volume with data blocks from 513 to 4,095, and of how many paths, the root included. If not, the
/// least kind that shows it, and the least number that shows this kind. The one error is `NoMemory` (1).
pub fn judge(alloc: Global, tables: &Tables) -> Result<Verdict, NoMemory>
    ensures right { IfOk result (IsRight tables.now) }
    ensures exactly { (tree : Tree) → StandsAs tables.now tree → IfOk result (λ verdict. verdict ≡ IsClean (length tree)) }
{
    let walked = walk(alloc, tables)?;
    for kind in 1..8u8 {
        if let Some(number) = first_shown(kind, tables, &walked) {
            return Ok(Verdict::Broken(kind, number));
        }
    }
    Ok(Verdict::Clean(count_used(tables)))
}

/// One walk over tables.
fn walk(alloc: Global, tables: &Tables) -> Result<Walked, NoMemory>
    ensures { IfOk result (λ w. IsWalked tables.now w.names.items w.reached.items w.firsts.items) }
{
    let names = count_names(alloc, tables)?;
    let reached = reached_inodes(alloc, tables)?;
    let firsts = first_blocks(alloc, tables)?;
    Ok(Walked {
        names,
        reached,
        firsts,
    })
}

/// How many inodes are in use; the tables are such as transactions make.
fn count_used(tables: &Tables) -> u32
    ensures count { result ≡ count_by is_some tables.now.inodes }
    ensures raw { IsRaw tables.now }
{
    let mut count = 0;
    for number in 0..tables.numbers() {
        if tables.inode(number as u16).is_some() {
            count += 1;
        }
    }
    count
}

/// The least number that shows a kind; `None` where its rule is kept at each.
fn first_shown(kind: u8, tables: &Tables, walked: &Walked) -> Option<u16>
    requires some { 1 ≤ kind }
    requires walked { IsWalked tables.now walked.now.names.items walked.now.reached.items walked.now.firsts.items }
    requires below { AllKeepBelow tables.now kind }
    ensures { MatchOption result (AllKeep kind tables.now) (IsLeastShown kind tables.now) }
{
    for number in 0..tables.numbers() {
        if is_shown(kind, tables, walked, number as u16) {
            return Some(number as u16);
        }
    }
    None
}

/// Whether a number shows a kind.
fn is_shown(kind: u8, tables: &Tables, walked: &Walked, number: u16) -> bool
    requires some { 1 ≤ kind }
    requires raw { IsRaw tables.now }
    requires walked { IsWalked tables.now walked.now.names.items walked.now.reached.items walked.now.firsts.items }
    requires below { AllKeepBelow tables.now kind }
    ensures { MatchBool result (KindShows kind tables.now number) (KeepsRule kind tables.now number) }
{
    match kind {
        1 => number == 0 && !is_directory(tables, 0),
        2 => has_stray(tables, number),
        3 => is_misnamed(tables, &walked.names, number),
        4 => is_lost(tables, &walked.reached, number),
        5 => is_missized(tables, number),
        6 => has_stray_tag(tables, &walked.firsts, number),
        _ => has_gap(tables, &walked.firsts, number),
    }
}
