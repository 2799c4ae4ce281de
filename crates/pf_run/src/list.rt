//! The records of a server, written as text.
ghost use Rattle.std.specs.Prelude.{◌≤◌, length};
ghost use Rattle.pf_io.specs.Causes.{Rose};
ghost use Rattle.pf_run.specs.Listing.{ListEnds};

use pf_disk::Disk;
use pf_io::Sink;
use pf_run_lines::{Status, write_all};
use pf_run_listing::list_server;
use std::alloc::Global;

/// Lists the records that a restart of a server would find on its two disks, and writes the text. Nothing is written to a disk.
pub fn list<K: Sink, D: Disk + Drop>(
    alloc: Global,
    group: u8,
    server: u8,
    sink: &mut K,
    disks: &mut Vec<D>,
) -> Status
    requires group { group ≤ 7 }
    requires server { server ≤ 2 }
    requires disks { 48 ≤ length disks.old.items }
    ensures { ListEnds D.seen D.may_leave D.faults group server result (K.taken sink.old) (K.taken sink.new) (Rose (K.faults sink.old) (K.faults sink.new))
        disks.old.items disks.new.items }
{
    let Ok(listed) = list_server(alloc, disks, group, server) else {
        return Status::NoMemory;
    };
    if write_all(sink, listed.text()).is_err() {
        return Status::WriteFault;
    }
    Status::Ok
}
