//! A file in memory with a record of each call that may change what a crash leaves of it.
ghost use Rattle.std.specs.Prelude.{◌≡◌, ◌+◌, ◌≤◌, ◌<◌, ◌&&◌, ◌++◌, [], ◌∷◌, IfOk, IsTrue, length, min, nat_le, nat_lt, vec_capacity, vec_len};
ghost use Rattle.pf_disk.specs.Files.{overwritten, end_of_write, file_resized};
ghost use Rattle.pf_disk.specs.Recorded.{IsCrashImage, after_cut, after_failed_cut, after_failed_write, after_write, count_written, replayed, settled};
ghost use Rattle.pf_disk.specs.Scrambles.{crashed};

use crate::files::{end_of, overwrite, resize, scramble};
use std::alloc::{AllocError, Global};

/// One call.
#[derive(Clone, Copy)]
pub enum TapeRecord {
    /// A write to an offset, of so many bytes.
    Write(usize, usize),
    /// A cut to a length.
    Cut(usize),
    /// A sync that succeeded.
    Sync,
    /// A write to an offset, of so many bytes, that failed.
    FailedWrite(usize, usize),
    /// A cut to a length that failed.
    FailedCut(usize),
}

/// The bytes of a file, those that it began with, and its calls since.
#[derive(Drop)]
pub struct Tape {
    /// What a read gives.
    pub bytes: Vec<u8>,
    /// What the file held as the records begin.
    pub base: Vec<u8>,
    /// The bytes of the writes that succeeded, one after another.
    pub written: Vec<u8>,
    pub records: Vec<TapeRecord>,
    /// The ranges written since the last sync that succeeded.
    pub touched: Vec<(usize, usize)>,
    /// In bytes, of the file and of all writes together.
    pub room: usize,
    /// How many calls can be recorded.
    pub places: usize,
    ghost reads: { (replayed (settled base.items) records.items written.items).file ≡ bytes.items },
    ghost image: { IsCrashImage (replayed (settled base.items) records.items written.items) bytes.items },
    ghost marks: { (replayed (settled base.items) records.items written.items).touched ≡ touched.items },
    ghost counts: { count_written records.items ≡ vec_len written },
    ghost ranges: { vec_len touched ≤ vec_len records },
    ghost filled: { vec_len bytes ≤ room },
    ghost spent: { vec_len written ≤ room },
    ghost used: { vec_len records ≤ places },
    ghost room_of_bytes: { room ≤ vec_capacity bytes },
    ghost room_of_base: { room ≤ vec_capacity base },
    ghost room_of_written: { room ≤ vec_capacity written },
    ghost room_of_records: { places ≤ vec_capacity records },
    ghost room_of_touched: { places ≤ vec_capacity touched },
}

impl Tape {
    ghost use Rattle.pf_disk.specs.Tapes.{fits_write, fits_cut, has_place, state_of_tape, Adds};

    /// An empty file, with room for so many bytes and records.
    pub fn new(alloc: Global, room: usize, places: usize) -> Result<Tape, AllocError>
        ensures empty { IfOk result (λ tape. state_of_tape tape ≡ settled []) }
        ensures room { IfOk result (λ tape. tape.room ≡ room) }
        ensures places { IfOk result (λ tape. tape.places ≡ places) }
        ensures records { IfOk result (λ tape. tape.records.items ≡ []) }
    {
        Ok(Tape {
            bytes: Vec::with_capacity(alloc, room)?,
            base: Vec::with_capacity(alloc, room)?,
            written: Vec::with_capacity(alloc, room)?,
            records: Vec::with_capacity(alloc, places)?,
            touched: Vec::with_capacity(alloc, places)?,
            room,
            places,
        })
    }

    /// Whether there is room for the record of one call more.
    pub fn has_place(&self) -> bool
        ensures { result ≡ has_place self.now }
    {
        self.records.len() < self.places
    }

    /// Whether there is room for a write of so many bytes.
    pub fn fits_write(&self, at: u64, count: usize) -> bool
        ensures { result ≡ fits_write self.now at count }
    {
        let room = self.room as u64;
        let ends_within = count == 0 || (at <= room && count as u64 <= room - at);
        ends_within && count <= self.room - self.written.len() && self.has_place()
    }

    /// Whether there is room for a cut to this length.
    pub fn fits_cut(&self, len: u64) -> bool
        ensures { result ≡ fits_cut self.now len }
    {
        len <= self.room as u64 && self.has_place()
    }

    /// Writes bytes.
    pub fn write(&mut self, at: usize, bytes: &[u8])
        requires { IsTrue (fits_write self.old at (length bytes.now)) }
        ensures adds { Adds self.old self.new (TapeRecord.Write at (length bytes.now)) bytes.now }
        ensures state { state_of_tape self.new ≡ after_write (state_of_tape self.old) at bytes.now }
    {
        let from = self.bytes.len().min(at);
        let to = end_of(at, bytes.len());
        let _ = self.touched.push((from, to));
        let _ = self.records.push(TapeRecord::Write(at, bytes.len()));
        let _ = self.written.extend_from_slice(bytes);
        overwrite(&mut self.bytes, at, bytes);
    }

    /// Notes a write that failed.
    pub fn fail_write(&mut self, at: usize, count: usize)
        requires { IsTrue (fits_write self.old at count) }
        ensures adds { Adds self.old self.new (TapeRecord.FailedWrite at count) [] }
        ensures state { state_of_tape self.new ≡ after_failed_write (state_of_tape self.old) at count }
    {
        let from = self.bytes.len().min(at);
        let to = end_of(at, count);
        let _ = self.touched.push((from, to));
        let _ = self.records.push(TapeRecord::FailedWrite(at, count));
    }

    /// Cuts the file to a length, or lengthens it with zeros.
    pub fn cut(&mut self, len: usize)
        requires { IsTrue (fits_cut self.old len) }
        ensures adds { Adds self.old self.new (TapeRecord.Cut len) [] }
        ensures state { state_of_tape self.new ≡ after_cut (state_of_tape self.old) len }
    {
        let _ = self.touched.push((self.bytes.len(), len));
        let _ = self.records.push(TapeRecord::Cut(len));
        resize(&mut self.bytes, len);
    }

    /// Notes a cut that failed.
    pub fn fail_cut(&mut self, len: usize)
        requires { IsTrue (fits_cut self.old len) }
        ensures adds { Adds self.old self.new (TapeRecord.FailedCut len) [] }
        ensures state { state_of_tape self.new ≡ after_failed_cut (state_of_tape self.old) len }
    {
        let _ = self.touched.push((self.bytes.len(), len));
        let _ = self.records.push(TapeRecord::FailedCut(len));
    }

    /// Notes a sync that succeeded.
    pub fn sync(&mut self)
        requires { IsTrue (has_place self.old) }
        ensures adds { Adds self.old self.new TapeRecord.Sync [] }
        ensures state { state_of_tape self.new ≡ settled (state_of_tape self.old).file }
    {
        self.touched.clear();
        let _ = self.records.push(TapeRecord::Sync);
    }

    /// Crashes: each byte that may change becomes the next of a generator started at `seed`, and the file ends where it
    /// did. What is then there is durable, and the records begin anew.
    pub fn crash(&mut self, seed: u64)
        ensures bytes { self.new.bytes.items ≡ crashed (state_of_tape self.old) seed }
        ensures image { IsCrashImage (state_of_tape self.old) self.new.bytes.items }
        ensures state { state_of_tape self.new ≡ settled self.new.bytes.items }
        ensures room { self.new.room ≡ self.old.room }
        ensures places { self.new.places ≡ self.old.places }
    {
        scramble(&mut self.bytes, &self.touched, seed);
        self.base.clear();
        let _ = self.base.extend_from_slice(&self.bytes);
        self.written.clear();
        self.records.clear();
        self.touched.clear();
    }
}
