//! A disk in memory that records its calls, and so tells all that a crash may leave.
ghost use Rattle.std.specs.Prelude.{◌≡◌, ◌⊎◌, ◌+◌, ◌≤◌, ◌<◌, ◌↔◌, ◌||◌, [], not, true, min, IfOk, IfSome, IsErr, IsTrue, is_some, OnErr, OnOk, Some, length, vec_len};
ghost use Rattle.pf_io.specs.Causes.{HasCause, Rose};
ghost use Rattle.pf_io.specs.Memory.{is_listed, next_call};
ghost use Rattle.pf_disk.specs.Crashes.{Cut, Elapses, ImagesFollow, KeepsImages, Only, Torn};
ghost use Rattle.pf_disk.specs.Files.{FileIsRead, overwritten, end_of_write, file_resized};
ghost use Rattle.pf_disk.specs.Recorded.{IsCrashImage, LeftSince, after_cut, after_failed_cut, after_failed_write, after_write, settled};
ghost use Rattle.pf_disk.specs.Scrambles.{crashed};
ghost use Rattle.pf_disk.specs.Tapes.{fits_cut, fits_write, has_place, state_of_tape};

use crate::tape::Tape;
use crate::{Disk, Failed};
use pf_io::copy_front;
use std::alloc::{AllocError, Global};

/// A disk in memory. Its calls are numbered from 0, and those that a list names fail. It records its writes, cuts and
/// syncs, and what a crash may leave follows from the records alone. A write or a cut that the list fails changes no
/// byte that is read, but counts as made for a crash. One that finds no room leaves no trace.
#[derive(Drop)]
pub struct MemDisk {
    tape: Tape,
    calls: u64,
    failing: Vec<u64>,
    faults: u64,
}

impl MemDisk {
    /// An empty disk. `room` is in bytes, of the file and of all that is written together; `calls` is how many writes,
    /// cuts and syncs it can record. All memory is taken here. The calls whose numbers are listed fail: the first call
    /// has number 0. So does a call that finds no room.
    pub fn new(
        alloc: Global,
        room: u64,
        calls: u64,
        failing: Vec<u64>,
    ) -> Result<MemDisk, AllocError>
        ensures state { IfOk result (λ disk. state_of_tape disk.tape ≡ settled []) }
        ensures room { IfOk result (λ disk. disk.tape.room ≡ room) }
        ensures places { IfOk result (λ disk. disk.tape.places ≡ calls) }
        ensures faults { IfOk result (λ disk. disk.faults ≡ 0) }
        ensures calls { IfOk result (λ disk. disk.calls ≡ 0) }
        ensures failing { IfOk result (λ disk. disk.failing ≡ failing) }
    {
        Ok(MemDisk {
            tape: Tape::new(alloc, room as usize, calls as usize)?,
            calls: 0,
            failing,
            faults: 0,
        })
    }

    /// What it reads.
    pub fn bytes(&self) -> &[u8]
        ensures { Some result.now ≡ ⟦<MemDisk as Disk>⟧.seen self.now }
    {
        &self.tape.bytes
    }

    /// Crashes, and takes no memory: each byte that a crash now may change becomes the top byte of the next number of
    /// the generator x -> x * 6364136223846793005 + 1442695040888963407 mod 2^64, started at `seed`. The file ends where
    /// it did. The records begin anew, so that all room is free but that of the bytes.
    pub fn crash(&mut self, seed: u64)
        ensures bytes { self.new.tape.bytes.items ≡ crashed (state_of_tape self.old.tape) seed }
        ensures image { ⟦<MemDisk as Disk>⟧.may_leave self.old self.new.tape.bytes.items }
        ensures only { Only self.new.tape.bytes.items (⟦<MemDisk as Disk>⟧.may_leave self.new) }
        ensures room { self.new.tape.room ≡ self.old.tape.room }
        ensures places { self.new.tape.places ≡ self.old.tape.places }
        ensures calls { self.new.calls ≡ self.old.calls }
        ensures failing { self.new.failing ≡ self.old.failing }
        ensures faults { self.new.faults ≡ self.old.faults }
    {
        self.tape.crash(seed);
    }

    /// Counts a call, and tells whether it is one of those that are to fail.
    fn begin(&mut self) -> bool
        ensures listed { result ≡ is_listed self.old.failing.items self.old.calls }
        ensures tape { self.new.tape ≡ self.old.tape }
        ensures calls { self.new.calls ≡ next_call self.old.calls }
        ensures failing { self.new.failing ≡ self.old.failing }
        ensures faults { self.new.faults ≡ self.old.faults }
    {
        let fails = self.failing.contains(&self.calls);
        self.calls = self.calls.saturating_add(1);
        fails
    }

    /// Counts a call that fails.
    fn fail(&mut self) -> Failed
        ensures tape { self.new.tape ≡ self.old.tape }
        ensures calls { self.new.calls ≡ self.old.calls }
        ensures failing { self.new.failing ≡ self.old.failing }
        ensures later { self.old.faults ≤ self.new.faults }
        ensures rose { Rose self.old.faults self.new.faults }
    {
        self.faults = self.faults.saturating_add(1);
        Failed
    }
}

impl Disk for MemDisk {
    ghost use Rattle.std.specs.Prelude.{refl};
    ghost use Rattle.pf_disk.specs.Laws.{no_other, now};

    ghost seen = { λ d. Some d.tape.bytes.items };

    ghost may_leave = { λ d. IsCrashImage (state_of_tape d.tape) };

    ghost moment = { λ d. length d.tape.records.items };

    ghost left_since = { λ d. LeftSince d.tape.base.items d.tape.records.items d.tape.written.items };

    ghost tells = { true };

    ghost tells_moments = { true };

    ghost faults = { λ d. d.faults };

    ghost among = { λ d. d.tape.image };

    ghost counts_now = { λ d t c le image. now d.tape.base.items d.tape.records.items d.tape.written.items t c le image };

    ghost told = { λ tells disk. refl };

    ghost only_now = { λ told d c left. no_other d.tape.base.items d.tape.records.items d.tape.written.items c left };

    fn len(&mut self) -> Result<u64, Failed>
        ensures length { IfOk result (λ len. len ≡ length self.old.tape.bytes.items) }
        ensures seen { Some self.new.tape.bytes.items ≡ Some self.old.tape.bytes.items }
        ensures crash { KeepsImages (IsCrashImage (state_of_tape self.old.tape)) (IsCrashImage (state_of_tape self.new.tape)) }
        ensures time { Elapses (length self.old.tape.records.items) (length self.new.tape.records.items)
            (LeftSince self.old.tape.base.items self.old.tape.records.items self.old.tape.written.items)
            (LeftSince self.new.tape.base.items self.new.tape.records.items self.new.tape.written.items) (IsCrashImage (state_of_tape self.new.tape)) }
        ensures cause { HasCause self.old.faults self.new.faults result }
        // Exactly a call that is listed fails, or that finds no room.
        ensures fails { IsErr result ↔ IsTrue (is_listed self.old.failing.items self.old.calls) }
        ensures calls { self.new.calls ≡ next_call self.old.calls }
        ensures failing { self.new.failing ≡ self.old.failing }
        ensures tape { self.new.tape ≡ self.old.tape }
    {
        if self.begin() {
            return Err(self.fail());
        }
        Ok(self.tape.bytes.len() as u64)
    }

    fn read(&mut self, at: u64, buf: &mut [u8]) -> Result<usize, Failed>
        ensures bound { IfOk result (λ count. count ≤ length buf.new) }
        ensures bytes { IfOk result (λ count. FileIsRead self.old.tape.bytes.items at (length buf.new) count buf.new) }
        ensures seen { Some self.new.tape.bytes.items ≡ Some self.old.tape.bytes.items }
        ensures crash { KeepsImages (IsCrashImage (state_of_tape self.old.tape)) (IsCrashImage (state_of_tape self.new.tape)) }
        ensures time { Elapses (length self.old.tape.records.items) (length self.new.tape.records.items)
            (LeftSince self.old.tape.base.items self.old.tape.records.items self.old.tape.written.items)
            (LeftSince self.new.tape.base.items self.new.tape.records.items self.new.tape.written.items) (IsCrashImage (state_of_tape self.new.tape)) }
        ensures cause { HasCause self.old.faults self.new.faults result }
        // Exactly a call that is listed fails, or that finds no room.
        ensures fails { IsErr result ↔ IsTrue (is_listed self.old.failing.items self.old.calls) }
        ensures calls { self.new.calls ≡ next_call self.old.calls }
        ensures failing { self.new.failing ≡ self.old.failing }
        ensures tape { self.new.tape ≡ self.old.tape }
    {
        if self.begin() {
            return Err(self.fail());
        }
        if at >= self.tape.bytes.len() as u64 {
            return Ok(0);
        }
        Ok(copy_front(&self.tape.bytes[at as usize..], buf))
    }

    fn write_at(&mut self, at: u64, bytes: &[u8]) -> Result<(), Failed>
        ensures written { OnOk result (Some self.new.tape.bytes.items ≡ Some (overwritten self.old.tape.bytes.items at bytes.now)) }
        ensures told { is_some (Some self.new.tape.bytes.items) ≡ is_some (Some self.old.tape.bytes.items) }
        ensures crash { ImagesFollow (Torn (min (length self.old.tape.bytes.items) at) (end_of_write at (length bytes.now)))
            (IsCrashImage (state_of_tape self.old.tape)) (IsCrashImage (state_of_tape self.new.tape)) }
        ensures time { Elapses (length self.old.tape.records.items) (length self.new.tape.records.items)
            (LeftSince self.old.tape.base.items self.old.tape.records.items self.old.tape.written.items)
            (LeftSince self.new.tape.base.items self.new.tape.records.items self.new.tape.written.items) (IsCrashImage (state_of_tape self.new.tape)) }
        ensures cause { HasCause self.old.faults self.new.faults result }
        // Exactly a call that is listed fails, or that finds no room.
        ensures fails { IsErr result ↔ IsTrue (is_listed self.old.failing.items self.old.calls || not (fits_write self.old.tape at (length bytes.now))) }
        ensures calls { self.new.calls ≡ next_call self.old.calls }
        ensures failing { self.new.failing ≡ self.old.failing }
        ensures state { OnOk result (state_of_tape self.new.tape ≡ after_write (state_of_tape self.old.tape) at bytes.now) }
        ensures failed { OnErr result ((self.new.tape ≡ self.old.tape)
            ⊎ (state_of_tape self.new.tape ≡ after_failed_write (state_of_tape self.old.tape) at (length bytes.now))) }
    {
        let fails = self.begin();
        if !self.tape.fits_write(at, bytes.len()) {
            return Err(self.fail());
        }
        if fails {
            self.tape.fail_write(at as usize, bytes.len());
            return Err(self.fail());
        }
        self.tape.write(at as usize, bytes);
        Ok(())
    }

    fn cut(&mut self, len: u64) -> Result<(), Failed>
        ensures resized { OnOk result (Some self.new.tape.bytes.items ≡ Some (file_resized self.old.tape.bytes.items len)) }
        ensures told { is_some (Some self.new.tape.bytes.items) ≡ is_some (Some self.old.tape.bytes.items) }
        ensures crash { ImagesFollow (Cut (length self.old.tape.bytes.items) len) (IsCrashImage (state_of_tape self.old.tape))
            (IsCrashImage (state_of_tape self.new.tape)) }
        ensures time { Elapses (length self.old.tape.records.items) (length self.new.tape.records.items)
            (LeftSince self.old.tape.base.items self.old.tape.records.items self.old.tape.written.items)
            (LeftSince self.new.tape.base.items self.new.tape.records.items self.new.tape.written.items) (IsCrashImage (state_of_tape self.new.tape)) }
        ensures cause { HasCause self.old.faults self.new.faults result }
        // Exactly a call that is listed fails, or that finds no room.
        ensures fails { IsErr result ↔ IsTrue (is_listed self.old.failing.items self.old.calls || not (fits_cut self.old.tape len)) }
        ensures calls { self.new.calls ≡ next_call self.old.calls }
        ensures failing { self.new.failing ≡ self.old.failing }
        ensures state { OnOk result (state_of_tape self.new.tape ≡ after_cut (state_of_tape self.old.tape) len) }
        ensures failed { OnErr result ((self.new.tape ≡ self.old.tape) ⊎ (state_of_tape self.new.tape ≡ after_failed_cut (state_of_tape self.old.tape) len)) }
    {
        let fails = self.begin();
        if !self.tape.fits_cut(len) {
            return Err(self.fail());
        }
        if fails {
            self.tape.fail_cut(len as usize);
            return Err(self.fail());
        }
        self.tape.cut(len as usize);
        Ok(())
    }

    fn sync(&mut self) -> Result<(), Failed>
        ensures durable { OnOk result (Only self.old.tape.bytes.items (IsCrashImage (state_of_tape self.new.tape))) }
        ensures seen { Some self.new.tape.bytes.items ≡ Some self.old.tape.bytes.items }
        ensures crash { KeepsImages (IsCrashImage (state_of_tape self.old.tape)) (IsCrashImage (state_of_tape self.new.tape)) }
        ensures time { Elapses (length self.old.tape.records.items) (length self.new.tape.records.items)
            (LeftSince self.old.tape.base.items self.old.tape.records.items self.old.tape.written.items)
            (LeftSince self.new.tape.base.items self.new.tape.records.items self.new.tape.written.items) (IsCrashImage (state_of_tape self.new.tape)) }
        ensures cause { HasCause self.old.faults self.new.faults result }
        // Exactly a call that is listed fails, or that finds no room.
        ensures fails { IsErr result ↔ IsTrue (is_listed self.old.failing.items self.old.calls || not (has_place self.old.tape)) }
        ensures calls { self.new.calls ≡ next_call self.old.calls }
        ensures failing { self.new.failing ≡ self.old.failing }
        ensures state { OnOk result (state_of_tape self.new.tape ≡ settled (state_of_tape self.old.tape).file) }
        ensures failed { OnErr result (self.new.tape ≡ self.old.tape) }
    {
        if self.begin() || !self.tape.has_place() {
            return Err(self.fail());
        }
        self.tape.sync();
        Ok(())
    }
}
