//! The files of the system, by what their calls answer. Of what a file holds nothing is said.
ghost use Rattle.std.specs.Prelude.{◌≤◌, ℕ, Bool, List, Option, is_ok, length, IfOk};
ghost use Rattle.std.specs.Result.{result_ok};
ghost use Rattle.std.specs.declared.fs.options.OpenOptions.{OpenOptions};

use std::fs::{File, OpenOptions};
use std::io;
use std::os::unix::fs::FileExt;

/// An open file. Each ghost member is what a call of it may answer: a value, or none at an error. A program can only get such a
/// fact by the call.
pub trait Backing {
    /// The bytes of the file.
    ghost measures: { Self → Option ℕ → Type 0 };

    /// How many bytes a read from an offset on, into a buffer that has these bytes behind it, has given.
    ghost reads: { Self → (at : ℕ) → List ℕ → Option ℕ → Type 0 };

    /// Whether these bytes were written from an offset on.
    ghost writes: { Self → (at : ℕ) → List ℕ → Bool → Type 0 };

    /// Whether it was cut to a length, or lengthened to it.
    ghost cuts: { Self → (len : ℕ) → Bool → Type 0 };

    /// Whether what it holds was made to last.
    ghost syncs: { Self → Bool → Type 0 };

    /// The bytes of the file.
    fn len(&self) -> io::Result<u64>
        ensures { measures self.now (result_ok result) };

    /// Reads from an offset on.
    fn read_from(&self, at: u64, buf: &mut [u8]) -> io::Result<usize>
        ensures bound { IfOk result (λ count. count ≤ length buf.new) }
        ensures told { reads self.now at buf.new (result_ok result) };

    /// Writes all the bytes from an offset on.
    fn write_from(&self, at: u64, bytes: &[u8]) -> io::Result<()>
        ensures { writes self.now at bytes.now (is_ok result) };

    /// Cuts it to a length, or lengthens it.
    fn cut_to(&self, len: u64) -> io::Result<()>
        ensures { cuts self.now len (is_ok result) };

    /// Makes what it holds last.
    fn sync_all(&self) -> io::Result<()>
        ensures { syncs self.now (is_ok result) };
}

/// What opens files.
pub trait Opener {
    /// An open file.
    type File: Backing + Drop;

    /// What opening the file of a path with options may have given. A program can only get such a fact by the call.
    ghost opens: { OpenOptions → List ℕ → Self.File → Type 0 };

    /// Opens the file of a path.
    fn open(&self, options: &OpenOptions, path: &str) -> io::Result<Self::File>
        ensures { IfOk result (opens options.now path.now) };
}

/// A file of the system. That each call does what its name says is the system's and std's, which promise none of it.
impl Backing for File {
    ghost measures = { λ _ _. Unit {0} };

    ghost reads = { λ _ _ _ _. Unit {0} };

    ghost writes = { λ _ _ _ _. Unit {0} };

    ghost cuts = { λ _ _ _. Unit {0} };

    ghost syncs = { λ _ _. Unit {0} };

    fn len(&self) -> io::Result<u64> {
        Ok(self.metadata()?.len())
    }

    fn read_from(&self, at: u64, buf: &mut [u8]) -> io::Result<usize> {
        self.read_at(buf, at)
    }

    fn write_from(&self, at: u64, bytes: &[u8]) -> io::Result<()> {
        self.write_all_at(bytes, at)
    }

    fn cut_to(&self, len: u64) -> io::Result<()> {
        self.set_len(len)
    }

    fn sync_all(&self) -> io::Result<()> {
        File::sync_all(self)
    }
}

/// That the file is that of the path is the system's and std's, which promise none of it.
impl Opener for HostRuntime {
    type File = File;

    ghost opens = { λ _ _ _. Unit {0} };

    fn open(&self, options: &OpenOptions, path: &str) -> io::Result<File> {
        options.open(self, path)
    }
}
