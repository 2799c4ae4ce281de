//! The records of a server, listed.
ghost use Rattle.std.specs.Prelude.{◌≡◌, ◌≤◌, ◌⊎◌, ℕ, List, IfErr, IfOk, IfSome, IsErrOf, IsTrue};
ghost use Rattle.pf_disk.specs.Causes.{Rose};
ghost use Rattle.pf_chunklog.specs.Logs.{IsOnlyRead, LeavesOnly};
ghost use Rattle.pf_image.specs.Recovery.{AreRecoverable, FindsIn};
ghost use Rattle.pf_image.specs.Pairs.{AreLater};
ghost use Rattle.pf_run_listing.specs.Listing.{AreRecords, HasNone, IsSaid, ListedTells, listed_head, records_text, listed_text};

use pf_base::NoMemory;
use pf_chunklog::OpenFault;
use pf_disk::Disk;
use pf_entry::Record;
use pf_image::Pair;
use pf_report::put_record;
use std::alloc::Global;

/// What is listed of two disks.
#[derive(Drop)]
pub enum ListingOutcome {
    /// The lines of the records that were found.
    Records(Vec<u8>),
    /// That neither half is recoverable.
    NotOurs,
    /// That a disk has failed.
    DiskFault,
}

impl ListingOutcome {
    /// Its text: the lines of the records, or one line of constant text, which takes no memory.
    pub fn text(&self) -> &[u8]
        ensures { result.now ≡ listed_text self.now }
    {
        match self {
            ListingOutcome::Records(text) => text,
            ListingOutcome::NotOurs => b"not ours\n",
            ListingOutcome::DiskFault => b"disk fault\n",
        }
    }
}

/// The lines of these records.
fn lines_of(alloc: Global, records: &[Record]) -> Result<Vec<u8>, NoMemory>
    ensures { IfOk result (λ text. text.items ≡ records_text records.now) }
{
    let mut text = Vec::new(alloc);
    for record in records {
        put_record(&mut text, record)?;
    }
    Ok(text)
}

/// The lines of the records that a restart finds.
fn found_lines<D: Disk>(alloc: Global, pair: &mut Pair<D>) -> Result<Vec<u8>, OpenFault>
    ensures found { IfSome (D.seen pair.old.zero.disk) (λ zero. IfSome (D.seen pair.old.one.disk)
        (λ one. IfOk result (λ text. AreRecords (FindsIn pair.old.head zero one) text.items))) }
    ensures recoverable { IfOk result (λ text. AreRecords (λ content. AreRecoverable content.0 content.1) text.items) }
    ensures none { IfSome (D.seen pair.old.zero.disk) (λ zero. IfSome (D.seen pair.old.one.disk)
        (λ one. IsErrOf result OpenFault.NotOurs → HasNone pair.old.head zero one)) }
    ensures failed { IsErrOf result OpenFault.DiskFault → Rose (D.faults pair.old.zero.disk) (D.faults pair.new.zero.disk)
        ⊎ Rose (D.faults pair.old.one.disk) (D.faults pair.new.one.disk) }
    ensures zero { IsOnlyRead D.seen D.may_leave pair.old.zero.disk pair.new.zero.disk }
    ensures one { IsOnlyRead D.seen D.may_leave pair.old.one.disk pair.new.one.disk }
    ensures any_moment { IsTrue D.tells_moments → LeavesOnly D.moment D.left_since pair.old.zero.disk pair.new.zero.disk (D.may_leave pair.old.zero.disk)
        × LeavesOnly D.moment D.left_since pair.old.one.disk pair.new.one.disk (D.may_leave pair.old.one.disk) }
    ensures later { AreLater D.faults pair.old pair.new }
{
    match pair.reload(alloc) {
        Ok(read) => Ok(lines_of(alloc, &read.records)?),
        Err(fault) => Err(fault),
    }
}

/// What is said of what was found. This takes no memory, so a fault is told as what it is.
fn said(found: Result<Vec<u8>, OpenFault>) -> Result<ListingOutcome, NoMemory>
    ensures { IsSaid found result }
{
    match found {
        Ok(text) => Ok(ListingOutcome::Records(text)),
        Err(OpenFault::NoMemory) => Err(NoMemory),
        Err(OpenFault::NotOurs) => Ok(ListingOutcome::NotOurs),
        Err(OpenFault::DiskFault) => Ok(ListingOutcome::DiskFault),
    }
}

/// Lists the records of two disks, that of half 0 first, as `list_server` says. Nothing is written, and the disks come back, with what
/// they held.
pub(crate) fn list_records<D: Disk>(
    alloc: Global,
    a: D,
    b: D,
    group: u8,
    server: u8,
) -> (D, D, Result<ListingOutcome, NoMemory>)
    ensures told { IfOk result.2 (λ listed. IfSome (D.seen a) (λ zero. IfSome (D.seen b) (λ one.
        ListedTells (FindsIn (listed_head group server) zero one) (HasNone (listed_head group server) zero one)
        (Rose (D.faults a) (D.faults result.0) ⊎ Rose (D.faults b) (D.faults result.1)) listed))) }
    // Of disks that do not tell what they hold, this much is known.
    ensures any { IfOk result.2 (λ listed.
        ListedTells (λ content. AreRecoverable content.0 content.1) (Unit {0}) (Rose (D.faults a) (D.faults result.0) ⊎ Rose (D.faults b) (D.faults result.1))
        listed) }
    ensures zero { IsOnlyRead D.seen D.may_leave a result.0 }
    ensures one { IsOnlyRead D.seen D.may_leave b result.1 }
    ensures any_moment { IsTrue D.tells_moments → LeavesOnly D.moment D.left_since a result.0 (D.may_leave a)
        × LeavesOnly D.moment D.left_since b result.1 (D.may_leave b) }
    ensures later_zero { D.faults a ≤ D.faults result.0 }
    ensures later_one { D.faults b ≤ D.faults result.1 }
{
    let head = [b'P', b'F', b'C', b'L', 2, group, server];
    let mut pair = Pair::unread(a, b, head);
    let found = found_lines(alloc, &mut pair);
    let listed = said(found);
    let (a, b) = pair.into_disks();
    (a, b, listed)
}
