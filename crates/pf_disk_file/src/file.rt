//! A disk over one file of the operating system. It tells nothing of its content: what a file holds, and what a crash leaves of
//! it, is the system's. Its calls that fail are counted.
ghost use Rattle.std.specs.Prelude.{◌≡◌, ◌≤◌, ℕ, IfOk, IfSome, IsErr, IsNone, None, false, is_ok, length};
ghost use Rattle.std.specs.Result.{result_ok};
ghost use Rattle.pf_disk.specs.Causes.{HasCause, Rose};
ghost use Rattle.pf_disk_file.specs.Options.{disk_options};
ghost use Rattle.pf_disk_file.specs.Opened.{IsDiskOf};

use crate::system::{Backing, Opener};
use pf_disk::{Disk, Failed};
use std::fs::OpenOptions;
use std::io;

/// A file, or none where it could not be opened: then each call fails.
#[derive(Drop)]
pub struct FileDisk<F> {
    file: Option<F>,
    faults: u64,
}

/// Opens the file for reads and writes, and makes it where it is missing. What it holds is not cut off.
fn open<O: Opener>(opener: &O, path: &str) -> io::Result<O::File>
    ensures { IfOk result (O.opens disk_options path.now) }
{
    let mut options = OpenOptions::new();
    options.read(true);
    options.write(true);
    options.create(true);
    opener.open(&options, path)
}

impl<F: Backing> FileDisk<F> {
    /// The disk over the file at this path, which is made where it is missing. Where it cannot be opened, each call fails.
    pub fn at<O: Opener<File = F>>(opener: &O, path: &str) -> FileDisk<F>
        ensures sound { ⟦<FileDisk<F> as Disk>⟧.faults result ≡ 0 }
        ensures file { IsDiskOf O.opens path.now result }
    {
        FileDisk {
            file: open(opener, path).ok(),
            faults: 0,
        }
    }

    /// Counts a call that fails.
    fn fail(&mut self) -> Failed
        ensures later { self.old.faults ≤ self.new.faults }
        ensures rose { Rose self.old.faults self.new.faults }
        ensures file { self.new.file ≡ self.old.file }
    {
        self.faults = self.faults.saturating_add(1);
        Failed
    }
}

/// Nothing is said of what a file holds. That a call without a file fails is said, that each call is one of its file, with the answer
/// of that, and that a fault is counted.
impl<F: Backing> Disk for FileDisk<F> {
    ghost use Rattle.std.proofs.Common.{inl};

    ghost seen = { λ _. None };

    ghost may_leave = { λ _ _. Unit {0} };

    ghost moment = { λ _. 0 };

    ghost left_since = { λ _ _ _. Unit {0} };

    ghost tells = { false };

    ghost tells_moments = { false };

    ghost faults = { λ d. d.faults };

    ghost among = { λ _. tt };

    ghost counts_now = { λ d t c le left. tt };

    ghost told = { λ tells disk. Prim.cc tells };

    ghost only_now = { λ told. Prim.cc told };

    fn len(&mut self) -> Result<u64, Failed>
        ensures cause { HasCause self.old.faults self.new.faults result }
        ensures missing { IsNone self.old.file → IsErr result }
        ensures told { IfSome self.old.file (λ file. F.measures file (result_ok result)) }
        ensures file { self.new.file ≡ self.old.file }
    {
        let Some(file) = &self.file else {
            return Err(self.fail());
        };
        match file.len() {
            Ok(len) => Ok(len),
            Err(_) => Err(self.fail()),
        }
    }

    fn read(&mut self, at: u64, buf: &mut [u8]) -> Result<usize, Failed>
        ensures bound { IfOk result (λ count. count ≤ length buf.new) }
        ensures cause { HasCause self.old.faults self.new.faults result }
        ensures missing { IsNone self.old.file → IsErr result }
        ensures told { IfSome self.old.file (λ file. F.reads file at buf.new (result_ok result)) }
        ensures file { self.new.file ≡ self.old.file }
    {
        let Some(file) = &self.file else {
            return Err(self.fail());
        };
        match file.read_from(at, buf) {
            Ok(count) => Ok(count),
            Err(_) => Err(self.fail()),
        }
    }

    fn write_at(&mut self, at: u64, bytes: &[u8]) -> Result<(), Failed>
        ensures cause { HasCause self.old.faults self.new.faults result }
        ensures missing { IsNone self.old.file → IsErr result }
        ensures told { IfSome self.old.file (λ file. F.writes file at bytes.now (is_ok result)) }
        ensures file { self.new.file ≡ self.old.file }
    {
        let Some(file) = &self.file else {
            return Err(self.fail());
        };
        match file.write_from(at, bytes) {
            Ok(()) => Ok(()),
            Err(_) => Err(self.fail()),
        }
    }

    fn cut(&mut self, len: u64) -> Result<(), Failed>
        ensures cause { HasCause self.old.faults self.new.faults result }
        ensures missing { IsNone self.old.file → IsErr result }
        ensures told { IfSome self.old.file (λ file. F.cuts file len (is_ok result)) }
        ensures file { self.new.file ≡ self.old.file }
    {
        let Some(file) = &self.file else {
            return Err(self.fail());
        };
        match file.cut_to(len) {
            Ok(()) => Ok(()),
            Err(_) => Err(self.fail()),
        }
    }

    fn sync(&mut self) -> Result<(), Failed>
        ensures cause { HasCause self.old.faults self.new.faults result }
        ensures missing { IsNone self.old.file → IsErr result }
        ensures told { IfSome self.old.file (λ file. F.syncs file (is_ok result)) }
        ensures file { self.new.file ≡ self.old.file }
    {
        let Some(file) = &self.file else {
            return Err(self.fail());
        };
        match file.sync_all() {
            Ok(()) => Ok(()),
            Err(_) => Err(self.fail()),
        }
    }
}
