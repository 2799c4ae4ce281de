//! Which file of a folder is which disk.
ghost use Rattle.std.specs.Prelude.{◌≡◌, IfOk, length};
ghost use Rattle.std.specs.List.{All};
ghost use Rattle.std.specs.Path.{path_buf_bytes, path_join};
ghost use Rattle.pf_disk_file.specs.Files.{AreFilesOf, file_name};

use crate::{FileDisk, Opener};
use pf_base::NoMemory;
use pf_disk::Disk;
use std::alloc::Global;
use std::path::{Path, PathBuf};

/// Two halves for each of the three servers of eight groups.
const DISKS: usize = 48;

/// The file of a disk in a folder: `gGsIhH` is half H of server I of group G, and disk 6G + 2I + H.
///
/// `NoMemory` (1) where memory runs out.
pub fn file_in(alloc: Global, folder: &str, disk: usize) -> Result<PathBuf, NoMemory>
    ensures { IfOk result (λ path. path_buf_bytes path ≡ path_join folder.now (file_name disk)) }
{
    let (group, server, half) = (disk / 6, disk % 6 / 2, disk % 2);
    let name = format!(in alloc; "g{group}s{server}h{half}")?;
    Ok(Path::new(folder).join(alloc, name.as_str())?)
}

/// The 48 disks of the volumes in a folder, each over its file, which is made where it is missing. A disk whose file cannot be
/// opened is there, and fails in each call: so all of them where there is no such folder.
///
/// `NoMemory` (1) where memory runs out; some files may have been made by then.
pub fn disks_in<O: Opener>(
    opener: &O,
    alloc: Global,
    folder: &str,
) -> Result<Vec<FileDisk<O::File>>, NoMemory>
    ensures count { IfOk result (λ disks. length disks.items ≡ 48) }
    ensures sound { IfOk result (λ disks. All (λ disk. ⟦<FileDisk<O::File> as Disk>⟧.faults disk ≡ 0) disks.items) }
    ensures files { IfOk result (λ disks. AreFilesOf O.opens folder.now disks.items) }
{
    let mut disks = Vec::new(alloc);
    for disk in 0..DISKS {
        let path = file_in(alloc, folder, disk)?;
        disks.push(FileDisk::at(opener, path.as_str()))?;
    }
    Ok(disks)
}
