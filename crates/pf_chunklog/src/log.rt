//! A log over one file. Its head comes first; each record stands behind a gate of one byte, which is open (1) or closed
//! (any other), and a closed gate ends the records.
ghost use Rattle.std.specs.Prelude.{◌≡◌, ◌⊎◌, ◌+◌, ◌≤◌, ◌<◌, ◌^◌, ◌↔◌, ◌++◌, [], ◌∷◌, List, ℕ, Contains, IfErr, IfOk, IfSome, IsErrOf, IsTrue, OnErr, OnOk, Some, length, max, nat_le, is_ok, is_some, if◌then◌else◌};
ghost use Rattle.pf_base.specs.Sizes.{half_bytes};
ghost use Rattle.pf_disk.specs.Causes.{HasCause, Rose};
ghost use Rattle.pf_disk.specs.Crashes.{Only};
ghost use Rattle.pf_chunklog.specs.Records.{HalfHolds, IsOurs, Raw, blocks, body_of, first_number};
ghost use Rattle.pf_chunklog.specs.Logs.{BeforeOrAfter, LogIsAtRest, IsCleared, IsOnlyRead, LeavesOnly};

use crate::reading::{
    UP_TO_FIRST, behind_head, first_number, read_front, read_whole, split_records,
};
use crate::{AppendFault, DiskFault, OpenFault, Opened, RawRecords};
use pf_base::{HALF_BYTES, Shared};
use pf_disk::{Disk, Failed};
use std::alloc::Global;

/// A log of records over a disk that nobody else writes.
#[derive(Drop)]
pub struct ChunkLog<D: Disk> {
    pub disk: D,
    pub head: [u8; 8],
    pub used: u64,
}

/// Writes the head and a closed gate over whatever the file held.
fn begin<D: Disk>(disk: &mut D, head: &[u8; 8]) -> Result<(), Failed>
    ensures formatted { IfSome (D.seen disk.old) (λ _. OnOk result (IfSome (D.seen disk.new) (LogIsAtRest head.now 9 (D.may_leave disk.new) []))) }
    ensures alone { IfSome (D.seen disk.old) (λ _. OnOk result (D.seen disk.new ≡ Some (head.now ++ 0 ∷ []))) }
    ensures any_moment { IsTrue D.tells_moments → IfSome (D.seen disk.old)
        (λ _. LeavesOnly D.moment D.left_since disk.old disk.new (IsCleared (D.may_leave disk.old))) }
    ensures may_leave { IfSome (D.seen disk.old) (λ _. (c : List ℕ) → D.may_leave disk.new c → IsCleared (D.may_leave disk.old) c) }
    ensures told { is_some (D.seen disk.new) ≡ is_some (D.seen disk.old) }
    ensures cause { HasCause (D.faults disk.old) (D.faults disk.new) result }
{
    let mut start = [0u8; 9];
    start[..8].copy_from_slice(head);
    disk.cut(0)?;
    disk.sync()?;
    disk.write_at(0, &start)?;
    disk.sync()?;
    Ok(())
}

impl<D: Disk> ChunkLog<D> {
    /// A log over a disk that is not read or written yet: its first call is to be `clear`, `reload` or `read`.
    pub fn new(disk: D, head: [u8; 8]) -> ChunkLog<D>
        ensures disk { result.disk ≡ disk }
        ensures head { result.head ≡ head }
    {
        ChunkLog {
            disk,
            head,
            used: 9,
        }
    }

    /// Makes an empty log of a disk, whatever it held: cuts the file to 0 bytes, syncs, writes the head and a closed gate,
    /// and syncs. Once it has answered Ok, every crash leaves the head and a closed gate alone, until the next record is
    /// appended. `DiskFault` (40) comes only where the disk has failed in this call.
    pub fn format(disk: D, head: [u8; 8]) -> Result<ChunkLog<D>, (D, DiskFault)>
        ensures formatted { IfSome (D.seen disk) (λ _. IfOk result (λ log. IfSome (D.seen log.disk) (LogIsAtRest head log.used (D.may_leave log.disk) []))) }
        ensures alone { IfSome (D.seen disk) (λ _. IfOk result (λ log. D.seen log.disk ≡ Some (head ++ 0 ∷ []))) }
        ensures ok { IfOk result (λ log. (log.head ≡ head) × (log.used ≡ 9) × (is_some (D.seen log.disk) ≡ is_some (D.seen disk))) }
        ensures failed { IfErr result (λ given. (is_some (D.seen given.0) ≡ is_some (D.seen disk)) × Rose (D.faults disk) (D.faults given.0)) }
        ensures any_moment { IsTrue D.tells_moments → IfSome (D.seen disk) (λ _.
            IfOk result (λ log. LeavesOnly D.moment D.left_since disk log.disk (IsCleared (D.may_leave disk)))
            × IfErr result (λ given. LeavesOnly D.moment D.left_since disk given.0 (IsCleared (D.may_leave disk)))) }
    {
        let mut log = ChunkLog::new(disk, head);
        match log.clear(head) {
            Ok(()) => Ok(log),
            Err(fault) => Err((log.disk, fault)),
        }
    }

    /// `format` over the log's own disk, under another head. A crash at any moment of the call leaves a front of a file that
    /// one before might have left, or nine bytes at most. On an `Err` the log is to be cleared or reloaded.
    pub fn clear(&mut self, head: [u8; 8]) -> Result<(), DiskFault>
        ensures cleared { IfSome (D.seen self.old.disk) (λ _. OnOk result
            (IfSome (D.seen self.new.disk) (LogIsAtRest head self.new.used (D.may_leave self.new.disk) []))) }
        ensures alone { IfSome (D.seen self.old.disk) (λ _. OnOk result (D.seen self.new.disk ≡ Some (head ++ 0 ∷ []))) }
        ensures any_moment { IsTrue D.tells_moments → IfSome (D.seen self.old.disk)
            (λ _. LeavesOnly D.moment D.left_since self.old.disk self.new.disk (IsCleared (D.may_leave self.old.disk))) }
        ensures may_leave { IfSome (D.seen self.old.disk) (λ _. (c : List ℕ) → D.may_leave self.new.disk c → IsCleared (D.may_leave self.old.disk) c) }
        ensures told { is_some (D.seen self.new.disk) ≡ is_some (D.seen self.old.disk) }
        ensures ok { OnOk result ((self.new.head ≡ head) × (self.new.used ≡ 9)) }
        ensures err { OnErr result ((self.new.head ≡ self.old.head) × (self.new.used ≡ self.old.used)) }
        ensures later { D.faults self.old.disk ≤ D.faults self.new.disk }
        ensures failed { OnErr result (Rose (D.faults self.old.disk) (D.faults self.new.disk)) }
    {
        match begin(&mut self.disk, &head) {
            Ok(()) => {
                self.head = head;
                self.used = 9;
                Ok(())
            }
            Err(_) => Err(DiskFault),
        }
    }

    /// Opens the log of a disk and hands out its records: syncs, asks for the length and then reads to the end, so every later crash
    /// leaves what is handed out. The memory that it takes is in proportion to the file.
    ///
    /// `NoMemory` (1); `DiskFault` (40) only where the disk has failed in this call; `NotOurs` (42) exactly where the first eight bytes
    /// are not the head, or no closed gate ends the records.
    pub fn open(
        alloc: Global,
        disk: D,
        head: [u8; 8],
    ) -> Result<(ChunkLog<D>, RawRecords), (D, OpenFault)>
        ensures records { IfSome (D.seen disk) (λ file. IfOk result (λ opened. LogIsAtRest head opened.0.used (D.may_leave opened.0.disk) opened.1 file)) }
        ensures head { IfOk result (λ opened. opened.0.head ≡ head) }
        ensures only_records { IfSome (D.seen disk) (λ file. IfOk result (λ opened. (others : List Raw) → HalfHolds head others file → others ≡ opened.1)) }
        ensures not_ours { IfSome (D.seen disk) (λ file. IfErr result (λ given. given.1 ≡ OpenFault.NotOurs → IsOurs head file → ⊥)) }
        ensures only_read { IfOk result (λ opened. IsOnlyRead D.seen D.may_leave disk opened.0.disk) }
        ensures only_read_err { IfErr result (λ given. IsOnlyRead D.seen D.may_leave disk given.0) }
        ensures any_moment { IsTrue D.tells_moments → IfOk result (λ opened. LeavesOnly D.moment D.left_since disk opened.0.disk (D.may_leave disk)) }
        ensures any_moment_err { IsTrue D.tells_moments → IfErr result (λ given. LeavesOnly D.moment D.left_since disk given.0 (D.may_leave disk)) }
        ensures failed { IfErr result (λ given. given.1 ≡ OpenFault.DiskFault → Rose (D.faults disk) (D.faults given.0)) }
    {
        let mut log = ChunkLog::new(disk, head);
        match log.reload(alloc) {
            Ok(records) => Ok((log, records)),
            Err(fault) => Err((log.disk, fault)),
        }
    }

    /// `open` over the log's own disk, also after a `DiskFault`. On an `Err` the log is as it was: the disk reads the same.
    pub fn reload(&mut self, alloc: Global) -> Result<RawRecords, OpenFault>
        ensures records { IfSome (D.seen self.old.disk) (λ file. IfOk result
            (λ records. LogIsAtRest self.old.head self.new.used (D.may_leave self.new.disk) records file)) }
        ensures only_records { IfSome (D.seen self.old.disk) (λ file. IfOk result
            (λ records. (others : List Raw) → HalfHolds self.old.head others file → others ≡ records)) }
        ensures not_ours { IfSome (D.seen self.old.disk) (λ file. IsErrOf result OpenFault.NotOurs → IsOurs self.old.head file → ⊥) }
        ensures head { self.new.head ≡ self.old.head }
        ensures err { OnErr result (self.new.used ≡ self.old.used) }
        ensures only_read { IsOnlyRead D.seen D.may_leave self.old.disk self.new.disk }
        ensures any_moment { IsTrue D.tells_moments → LeavesOnly D.moment D.left_since self.old.disk self.new.disk (D.may_leave self.old.disk) }
        ensures later { D.faults self.old.disk ≤ D.faults self.new.disk }
        ensures failed { IsErrOf result OpenFault.DiskFault → Rose (D.faults self.old.disk) (D.faults self.new.disk) }
    {
        let head = self.head;
        match self.read(alloc, &[head]) {
            Ok(opened) => Ok(self.resume(opened)),
            Err(fault) => Err(fault),
        }
    }

    /// Reads the log's own disk as `open` does, for a file that begins with one of these heads, and leaves the log as it was.
    /// `NotOurs` (42) exactly where it begins with none of them, or no closed gate ends the records.
    pub fn read(&mut self, alloc: Global, heads: &[[u8; 8]]) -> Result<Opened, OpenFault>
        ensures records { IfSome (D.seen self.old.disk) (λ file. IfOk result
            (λ opened. LogIsAtRest opened.head opened.used (D.may_leave self.new.disk) opened.records file)) }
        ensures listed { IfOk result (λ opened. Contains heads.now opened.head) }
        ensures size { IfOk result (λ opened. (opened.used ≡ 9 + length (blocks opened.records)) × (opened.used < 2 ^ 64)) }
        ensures only_records { IfSome (D.seen self.old.disk) (λ file. IfOk result
            (λ opened. (others : List Raw) → HalfHolds opened.head others file → others ≡ opened.records)) }
        ensures not_ours { IfSome (D.seen self.old.disk) (λ file. IsErrOf result OpenFault.NotOurs → (head : List ℕ) → Contains heads.now head
            → IsOurs head file → ⊥) }
        // What is not ours is not ours after a crash either.
        ensures durable { IfSome (D.seen self.old.disk) (λ file. IsErrOf result OpenFault.NotOurs → Only file (D.may_leave self.new.disk)) }
        ensures head { self.new.head ≡ self.old.head }
        ensures used { self.new.used ≡ self.old.used }
        ensures only_read { IsOnlyRead D.seen D.may_leave self.old.disk self.new.disk }
        ensures any_moment { IsTrue D.tells_moments → LeavesOnly D.moment D.left_since self.old.disk self.new.disk (D.may_leave self.old.disk) }
        ensures later { D.faults self.old.disk ≤ D.faults self.new.disk }
        ensures failed { IsErrOf result OpenFault.DiskFault → Rose (D.faults self.old.disk) (D.faults self.new.disk) }
    {
        let bytes = read_whole(alloc, &mut self.disk)?;
        let Some((head, rest)) = behind_head(heads, &bytes) else {
            return Err(OpenFault::NotOurs);
        };
        let Some((marks, size)) = split_records(alloc, &bytes, rest)? else {
            return Err(OpenFault::NotOurs);
        };
        let head = *head;
        let used = 9 + size as u64;
        let file = Shared::new(alloc, bytes)?;
        let records = RawRecords::new(file, marks);
        Ok(Opened {
            head,
            used,
            records,
        })
    }

    /// The number in the first eight bytes of the first record's payload, or 0 where the file ends before: syncs, so that every later
    /// crash leaves the file, and reads no further than it must. Whether a record stands there is not looked at. The log is left as it
    /// was.
    pub fn first_number(&mut self, alloc: Global) -> Result<u64, OpenFault>
        ensures number { IfSome (D.seen self.old.disk) (λ file. IfOk result (λ number. number ≡ first_number file)) }
        ensures durable { IfSome (D.seen self.old.disk) (λ file. OnOk result (Only file (D.may_leave self.new.disk))) }
        ensures head { self.new.head ≡ self.old.head }
        ensures used { self.new.used ≡ self.old.used }
        ensures only_read { IsOnlyRead D.seen D.may_leave self.old.disk self.new.disk }
        ensures any_moment { IsTrue D.tells_moments → LeavesOnly D.moment D.left_since self.old.disk self.new.disk (D.may_leave self.old.disk) }
        ensures later { D.faults self.old.disk ≤ D.faults self.new.disk }
        ensures failed { IsErrOf result OpenFault.DiskFault → Rose (D.faults self.old.disk) (D.faults self.new.disk) }
        ensures ours { IsErrOf result OpenFault.NotOurs → ⊥ }
    {
        self.disk.sync()?;
        let front = read_front(alloc, &mut self.disk, UP_TO_FIRST)?;
        let number = first_number(&front);
        Ok(number)
    }

    /// Goes on from what was read of its file, and hands out the records. This takes no memory.
    pub fn resume(&mut self, opened: Opened) -> RawRecords
        ensures records { result ≡ opened.records }
        ensures head { self.new.head ≡ opened.head }
        ensures used { self.new.used ≡ opened.used }
        ensures disk { self.new.disk ≡ self.old.disk }
    {
        let head = opened.head;
        self.head = head;
        self.used = opened.used;
        opened.records
    }

    /// Whether the used bytes and so many more are within the limit of 67,108,864 bytes.
    pub fn has_room(&self, len: u64) -> bool
        ensures { result ≡ nat_le (self.now.used + len) half_bytes }
    {
        self.used <= HALF_BYTES && len <= HALF_BYTES - self.used
    }

    /// Appends a record: writes the body behind the closed gate, syncs, opens the gate, and syncs. At `Ok` it is acknowledged:
    /// from then on each crash leaves a file that has it. It takes no memory.
    ///
    /// `LogFull` (41) exactly where the used bytes and the body's are more than 67,108,864, and nothing is done; `DiskFault` (40)
    /// only where the disk has failed in this call, and then the log is to be reloaded.
    pub fn append(&mut self, body: &[u8]) -> Result<(), AppendFault>
        requires at_rest { IfSome (D.seen self.old.disk) (λ file. (records : List Raw)
            × LogIsAtRest self.old.head self.old.used (D.may_leave self.old.disk) records file) }
        requires body { (raw : Raw) × (body.now ≡ body_of raw) }
        ensures acknowledged { IfSome (D.seen self.old.disk) (λ old. (raw : Raw) (records : List Raw) → body.now ≡ body_of raw
            → LogIsAtRest self.old.head self.old.used (D.may_leave self.old.disk) records old
            → OnOk result (IfSome (D.seen self.new.disk) (LogIsAtRest self.new.head self.new.used (D.may_leave self.new.disk) (records ++ raw ∷ [])))) }
        ensures length { IfSome (D.seen self.old.disk) (λ old. OnOk result
            (IfSome (D.seen self.new.disk) (λ file. length file ≡ max (length old) (self.old.used + length body.now)))) }
        // A crash at any moment of the call leaves the records from before it, with the new one or without.
        ensures any_moment { IsTrue D.tells_moments → IfSome (D.seen self.old.disk)
            (λ old. (raw : Raw) (records : List Raw) → body.now ≡ body_of raw → LogIsAtRest self.old.head self.old.used (D.may_leave self.old.disk) records old
            → LeavesOnly D.moment D.left_since self.old.disk self.new.disk (BeforeOrAfter self.old.head records raw)) }
        ensures may_leave { IfSome (D.seen self.old.disk) (λ old. (raw : Raw) (records : List Raw) → body.now ≡ body_of raw
            → LogIsAtRest self.old.head self.old.used (D.may_leave self.old.disk) records old
            → (c : List ℕ) → D.may_leave self.new.disk c → BeforeOrAfter self.old.head records raw c) }
        ensures told { is_some (D.seen self.new.disk) ≡ is_some (D.seen self.old.disk) }
        ensures later { D.faults self.old.disk ≤ D.faults self.new.disk }
        ensures full { IsErrOf result AppendFault.LogFull ↔ (half_bytes < self.old.used + length body.now) }
        ensures full_unchanged { IsErrOf result AppendFault.LogFull → self.new ≡ self.old }
        ensures failed { IsErrOf result AppendFault.DiskFault → Rose (D.faults self.old.disk) (D.faults self.new.disk) }
        ensures head { self.new.head ≡ self.old.head }
        ensures used { self.new.used ≡ (if is_ok result then self.old.used + length body.now else self.old.used) }
    {
        if !self.has_room(body.len() as u64) {
            return Err(AppendFault::LogFull);
        }
        let gate = self.used.saturating_sub(1);
        self.disk.write_at(self.used, body)?;
        self.disk.sync()?;
        self.disk.write_at(gate, &[1])?;
        self.disk.sync()?;
        self.used += body.len() as u64;
        Ok(())
    }

    /// Gives the disk back.
    pub fn into_disk(self) -> D
        ensures { result ≡ self.disk }
    {
        self.disk
    }
}
