//! The two disks of a server among those of many.
ghost use Rattle.std.specs.Prelude.{◌≡◌, ◌+◌, ◌<◌, IfOk, length};
ghost use Rattle.pf_run_listing.specs.Disks.{AreRead, HasListed, HasTold, first_disk_of};
ghost use Rattle.pf_run_listing.specs.Listing.{listed_text};

use crate::listing::{ListingOutcome, list_records};
use pf_base::NoMemory;
use pf_disk::Disk;
use std::alloc::Global;

/// Lists the records that a restart of a server would find on its two disks: a line for each record of the current half, in order, as
/// `put_record` has it. Where neither half is recoverable the one line is `not ours`; where a disk failed it is `disk fault`, and only
/// where one of the two has failed in this call. Disk 6g + 2i + h is half h of server i of group g. All disks stand where they stood, with
/// what they held; only the two are read.
///
/// `NoMemory` (1) only where there is none for what is read or for the lines of the records, which is in proportion to the two files. The
/// two constant lines take none: where the reading ended at a fault, that is told.
pub fn list_server<D: Disk + Drop>(
    alloc: Global,
    disks: &mut Vec<D>,
    group: u8,
    server: u8,
) -> Result<ListingOutcome, NoMemory>
    requires { first_disk_of group server + 1 < length disks.old.items }
    ensures told { IfOk result (λ listed. HasTold D.seen D.may_leave D.faults group server disks.old.items disks.new.items listed) }
    ensures listed { IfOk result (λ listed. HasListed D.seen D.may_leave D.faults group server disks.old.items disks.new.items (listed_text listed)) }
    ensures read { AreRead D.seen D.may_leave D.faults group server disks.old.items disks.new.items }
{
    let place = 6 * usize::from(group) + 2 * usize::from(server);
    let zero = disks.remove(place);
    let one = disks.remove(place);
    let (zero, one, listed) = list_records(alloc, zero, one, group, server);
    // They have their old places, so there is room for them.
    let _ = disks.insert(place, one);
    let _ = disks.insert(place, zero);
    listed
}
