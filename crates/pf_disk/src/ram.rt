//! A file in memory of which a crash leaves what it reads.
ghost use Rattle.std.specs.Prelude.{◌≡◌, ◌⊎◌, ◌+◌, ◌≤◌, ◌<◌, ◌↔◌, [], false, true, min, is_some, IfOk, IsErr, IsOk, OnErr, OnOk, Some, length, vec_capacity, vec_len};
ghost use Rattle.pf_disk.specs.Crashes.{Cut, Elapses, ImagesFollow, KeepsImages, Only, Torn};
ghost use Rattle.pf_disk.specs.Files.{FileIsRead, overwritten, end_of_write, file_resized};
ghost use Rattle.pf_io.specs.Causes.{HasCause, Rose};

use crate::files::{overwrite, resize};
use crate::{Disk, Failed};
use pf_io::copy_front;
use std::alloc::{AllocError, Global};

/// A disk in memory. Its calls are done at once, and fail only past its room. It does not tell what a crash inside a
/// call leaves.
#[derive(Drop)]
pub struct RamDisk {
    bytes: Vec<u8>,
    room: usize,
    faults: u64,
    ghost filled: { vec_len bytes ≤ room },
    ghost reserved: { room ≤ vec_capacity bytes },
}

impl RamDisk {
    /// An empty disk with room for so many bytes, which is taken here.
    pub fn new(alloc: Global, room: u64) -> Result<RamDisk, AllocError>
        ensures seen { IfOk result (λ disk. ⟦<RamDisk as Disk>⟧.seen disk ≡ Some []) }
        ensures room { IfOk result (λ disk. disk.room ≡ room) }
        ensures faults { IfOk result (λ disk. ⟦<RamDisk as Disk>⟧.faults disk ≡ 0) }
    {
        let room = room as usize;
        Ok(RamDisk {
            bytes: Vec::with_capacity(alloc, room)?,
            room,
            faults: 0,
        })
    }

    /// What it reads.
    pub fn bytes(&self) -> &[u8]
        ensures { Some result.now ≡ ⟦<RamDisk as Disk>⟧.seen self.now }
    {
        &self.bytes
    }

    /// Counts a call that fails.
    fn fail(&mut self) -> Failed
        ensures bytes { self.new.bytes ≡ self.old.bytes }
        ensures room { self.new.room ≡ self.old.room }
        ensures later { self.old.faults ≤ self.new.faults }
        ensures rose { Rose self.old.faults self.new.faults }
    {
        self.faults = self.faults.saturating_add(1);
        Failed
    }
}

impl Disk for RamDisk {
    ghost use Rattle.std.specs.Prelude.{refl};
    ghost use Rattle.std.proofs.Common.{inl};

    ghost seen = { λ d. Some d.bytes.items };

    ghost may_leave = { λ d c. c ≡ d.bytes.items };

    ghost moment = { λ _. 0 };

    ghost left_since = { λ _ _ _. Unit {0} };

    ghost tells = { true };

    ghost tells_moments = { false };

    ghost faults = { λ d. d.faults };

    ghost among = { λ d. refl };

    ghost counts_now = { λ d t c le left. tt };

    ghost told = { λ tells disk. refl };

    ghost only_now = { λ told. Prim.cc told };

    fn len(&mut self) -> Result<u64, Failed>
        ensures length { IfOk result (λ len. len ≡ length self.old.bytes.items) }
        ensures seen { Some self.new.bytes.items ≡ Some self.old.bytes.items }
        ensures crash { KeepsImages (λ c. c ≡ self.old.bytes.items) (λ c. c ≡ self.new.bytes.items) }
        ensures time { Elapses 0 0 (λ _ _. Unit {0}) (λ _ _. Unit {0}) (λ c. c ≡ self.new.bytes.items) }
        ensures cause { HasCause self.old.faults self.new.faults result }
        ensures sure { IsOk result }
        ensures room { self.new.room ≡ self.old.room }
    {
        Ok(self.bytes.len() as u64)
    }

    fn read(&mut self, at: u64, buf: &mut [u8]) -> Result<usize, Failed>
        ensures bound { IfOk result (λ count. count ≤ length buf.new) }
        ensures bytes { IfOk result (λ count. FileIsRead self.old.bytes.items at (length buf.new) count buf.new) }
        ensures seen { Some self.new.bytes.items ≡ Some self.old.bytes.items }
        ensures crash { KeepsImages (λ c. c ≡ self.old.bytes.items) (λ c. c ≡ self.new.bytes.items) }
        ensures time { Elapses 0 0 (λ _ _. Unit {0}) (λ _ _. Unit {0}) (λ c. c ≡ self.new.bytes.items) }
        ensures cause { HasCause self.old.faults self.new.faults result }
        ensures sure { IsOk result }
        ensures room { self.new.room ≡ self.old.room }
    {
        if at >= self.bytes.len() as u64 {
            return Ok(0);
        }
        Ok(copy_front(&self.bytes[at as usize..], buf))
    }

    fn write_at(&mut self, at: u64, bytes: &[u8]) -> Result<(), Failed>
        ensures written { OnOk result (Some self.new.bytes.items ≡ Some (overwritten self.old.bytes.items at bytes.now)) }
        ensures told { is_some (Some self.new.bytes.items) ≡ is_some (Some self.old.bytes.items) }
        ensures crash { ImagesFollow (Torn (min (length self.old.bytes.items) at) (end_of_write at (length bytes.now))) (λ c. c ≡ self.old.bytes.items)
            (λ c. c ≡ self.new.bytes.items) }
        ensures time { Elapses 0 0 (λ _ _. Unit {0}) (λ _ _. Unit {0}) (λ c. c ≡ self.new.bytes.items) }
        ensures cause { HasCause self.old.faults self.new.faults result }
        // Exactly a write past the room fails, and it does nothing else.
        ensures fails { IsErr result ↔ (self.old.room < end_of_write at (length bytes.now)) }
        ensures failed { OnErr result (self.new.bytes ≡ self.old.bytes) }
        ensures room { self.new.room ≡ self.old.room }
    {
        let room = self.room as u64;
        let fits = bytes.is_empty() || (at <= room && bytes.len() as u64 <= room - at);
        if !fits {
            return Err(self.fail());
        }
        overwrite(&mut self.bytes, at as usize, bytes);
        Ok(())
    }

    fn cut(&mut self, len: u64) -> Result<(), Failed>
        ensures resized { OnOk result (Some self.new.bytes.items ≡ Some (file_resized self.old.bytes.items len)) }
        ensures told { is_some (Some self.new.bytes.items) ≡ is_some (Some self.old.bytes.items) }
        ensures crash { ImagesFollow (Cut (length self.old.bytes.items) len) (λ c. c ≡ self.old.bytes.items) (λ c. c ≡ self.new.bytes.items) }
        ensures time { Elapses 0 0 (λ _ _. Unit {0}) (λ _ _. Unit {0}) (λ c. c ≡ self.new.bytes.items) }
        ensures cause { HasCause self.old.faults self.new.faults result }
        // Exactly a cut past the room fails, and it does nothing else.
        ensures fails { IsErr result ↔ (self.old.room < len) }
        ensures failed { OnErr result (self.new.bytes ≡ self.old.bytes) }
        ensures room { self.new.room ≡ self.old.room }
    {
        if len > self.room as u64 {
            return Err(self.fail());
        }
        resize(&mut self.bytes, len as usize);
        Ok(())
    }

    fn sync(&mut self) -> Result<(), Failed>
        ensures durable { OnOk result (Only self.old.bytes.items (λ c. c ≡ self.new.bytes.items)) }
        ensures seen { Some self.new.bytes.items ≡ Some self.old.bytes.items }
        ensures crash { KeepsImages (λ c. c ≡ self.old.bytes.items) (λ c. c ≡ self.new.bytes.items) }
        ensures time { Elapses 0 0 (λ _ _. Unit {0}) (λ _ _. Unit {0}) (λ c. c ≡ self.new.bytes.items) }
        ensures cause { HasCause self.old.faults self.new.faults result }
        ensures sure { IsOk result }
        ensures room { self.new.room ≡ self.old.room }
    {
        Ok(())
    }
}
