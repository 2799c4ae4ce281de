//! A pair of halves: one is current and takes the records, and the next image begins the other.
ghost use Rattle.std.specs.Prelude.{◌≡◌, ◌⊎◌, ◌+◌, ◌≤◌, ◌<◌, ◌^◌, ◌↔◌, ◌++◌, [], ◌∷◌, List, ℕ, true, IfErr, IfOk, IfSome, IsErrOf, IsNone, IsTrue, OnErr, OnOk, Some, length, nat_le, is_some, slice_index};
ghost use Rattle.std.specs.List.{AllZip};
ghost use Rattle.pf_base.specs.Sizes.{half_bytes};
ghost use Rattle.pf_disk.specs.Causes.{HasCause, Rose};
ghost use Rattle.pf_disk.specs.Crashes.{Only};
ghost use Rattle.pf_chunklog.specs.Records.{HalfHolds, Raw, blocks, body_of, first_number};
ghost use Rattle.pf_chunklog.specs.Logs.{LogIsAtRest, IsCleared, IsOnlyRead, LeavesOnly};
ghost use Rattle.pf_image.specs.Halves.{half_head, of_half, other};
ghost use Rattle.pf_image.specs.Current.{IsBegun, LogIsReady};
ghost use Rattle.pf_image.specs.Found.{HalfIsFound};
ghost use Rattle.pf_image.specs.Recovery.{
  AreRecoverable,
  Content,
  Finds,
  HalfIsBehind,
  IsChange,
  IsFormat,
  IsLaterImage,
  IsOlder,
  IsRecoverable,
  SpellsRecord,
  generation,
};

use crate::recovery::{FoundRecords, HalfRecords, find_half};
use crate::{Half, PairPlace};
use pf_chunklog::{AppendFault, ChunkLog, DiskFault, OpenFault, RawRecords};
use pf_disk::{Disk, Failed};
use std::alloc::Global;

/// The two halves of a server's chunk log, over two disks that nobody else writes.
#[derive(Drop)]
pub struct Pair<D: Disk> {
    pub(crate) zero: ChunkLog<D>,
    pub(crate) one: ChunkLog<D>,
    pub(crate) current: Half,
    pub(crate) head: [u8; 7],
}

/// Cuts a file to 0 bytes and syncs it.
fn empty<D: Disk>(disk: &mut D) -> Result<(), Failed>
    ensures empty { IfSome (D.seen disk.old) (λ _. OnOk result (Only [] (D.may_leave disk.new))) }
    ensures told { is_some (D.seen disk.new) ≡ is_some (D.seen disk.old) }
    ensures cause { HasCause (D.faults disk.old) (D.faults disk.new) result }
{
    disk.cut(0)?;
    disk.sync()
}

/// Makes a log of this one record.
fn begin<D: Disk>(log: &mut ChunkLog<D>, head: [u8; 8], body: &[u8]) -> Result<(), DiskFault>
    requires body { (raw : Raw) × (body.now ≡ body_of raw) }
    requires fits { 9 + length body.now ≤ half_bytes }
    ensures begun { (raw : Raw) → body.now ≡ body_of raw → IfSome (D.seen log.old.disk)
        (λ _. OnOk result (IfSome (D.seen log.new.disk) (LogIsAtRest head log.new.used (D.may_leave log.new.disk) (raw ∷ [])))) }
    ensures length { IfSome (D.seen log.old.disk) (λ _. OnOk result (IfSome (D.seen log.new.disk) (λ file. length file ≡ 9 + length body.now))) }
    ensures may_leave { (raw : Raw) → body.now ≡ body_of raw → IfSome (D.seen log.old.disk)
        (λ _. (c : List ℕ) → D.may_leave log.new.disk c → IsBegun (D.may_leave log.old.disk) head raw c) }
    ensures any_moment { IsTrue D.tells_moments → (raw : Raw) → body.now ≡ body_of raw
        → IfSome (D.seen log.old.disk) (λ _. LeavesOnly D.moment D.left_since log.old.disk log.new.disk (IsBegun (D.may_leave log.old.disk) head raw)) }
    ensures told { is_some (D.seen log.new.disk) ≡ is_some (D.seen log.old.disk) }
    ensures head { OnOk result (log.new.head ≡ head) }
    ensures used { OnOk result (log.new.used ≡ 9 + length body.now) }
    ensures later { D.faults log.old.disk ≤ D.faults log.new.disk }
    ensures failed { OnErr result (Rose (D.faults log.old.disk) (D.faults log.new.disk)) }
{
    log.clear(head)?;
    match log.append(body) {
        Ok(()) => Ok(()),
        Err(_) => Err(DiskFault),
    }
}

impl<D: Disk> Pair<D> {
    ghost use Rattle.pf_image.specs.Pairs.{AreLater, IsInDoubt, PairIsDurable, PairIsWhole, PairStandsStill, PairTells, WasInDoubt, current_of, format_of, pair_moved_to, place_of_pair};

    /// Whether the used bytes of the current half and so many more are within the limit of 67,108,864 bytes.
    pub fn has_room(&self, len: u64) -> bool
        ensures { result ≡ nat_le ((current_of self.now).used + len) half_bytes }
    {
        match self.current {
            Half::Zero => self.zero.has_room(len),
            Half::One => self.one.has_room(len),
        }
    }

    /// The bytes of the current half that are used, with the closed gate that ends its records.
    pub fn used_bytes(&self) -> u64
        ensures { result ≡ (current_of self.now).used }
    {
        match self.current {
            Half::Zero => self.zero.used,
            Half::One => self.one.used,
        }
    }

    /// The format of the current half, 1 or 2.
    pub fn format(&self) -> u8
        ensures { result ≡ format_of self.now }
    {
        match self.current {
            Half::Zero => self.zero.head[4],
            Half::One => self.one.head[4],
        }
    }

    /// Where it stands.
    pub fn place(&self) -> PairPlace
        ensures { result ≡ place_of_pair self.now }
    {
        PairPlace {
            current: self.current,
            zero_head: self.zero.head,
            zero_used: self.zero.used,
            one_head: self.one.head,
            one_used: self.one.used,
        }
    }

    /// Stands there from now on. Nothing is read or written.
    pub fn stand_at(&mut self, place: PairPlace)
        ensures { self.new ≡ pair_moved_to self.old place }
    {
        let PairPlace {
            current,
            zero_head,
            zero_used,
            one_head,
            one_used,
        } = place;
        self.current = current;
        self.zero.head = zero_head;
        self.zero.used = zero_used;
        self.one.head = one_head;
        self.one.used = one_used;
    }

    /// Gives the disks back, that of half 0 first.
    pub fn into_disks(self) -> (D, D)
        ensures zero { result.0 ≡ self.zero.disk }
        ensures one { result.1 ≡ self.one.disk }
    {
        (self.zero.into_disk(), self.one.into_disk())
    }

    /// Appends a change to the current half, in its format: the body of a Term, Entry or Merged record. At `Ok` it is
    /// acknowledged: from then on a restart finds it after each crash. It takes no memory.
    ///
    /// `LogFull` (41) exactly where the used bytes of the current half and the body's are more than 67,108,864, and nothing is
    /// done; `DiskFault` (40) only where one of the disks has failed in this call, and then the pair is to be reloaded.
    pub fn append(&mut self, body: &[u8]) -> Result<(), AppendFault>
        requires ready { LogIsReady D.seen D.may_leave (current_of self.old) }
        requires body { (raw : Raw) × (body.now ≡ body_of raw) }
        ensures acknowledged { (raw : Raw) (records : List Raw) → body.now ≡ body_of raw → IsChange (format_of self.old) raw
            → PairIsWhole D.seen D.may_leave self.old records
            → OnOk result (PairIsWhole D.seen D.may_leave self.new (records ++ raw ∷ [])) }
        // A crash leaves the records from before the call, with the new one or without, also inside the call.
        ensures doubt { (raw : Raw) (records : List Raw) → body.now ≡ body_of raw → IsChange (format_of self.old) raw
            → PairIsWhole D.seen D.may_leave self.old records
            → IsInDoubt D.may_leave self.new (format_of self.old, records) (format_of self.old, records ++ raw ∷ []) }
        ensures any_moment { IsTrue D.tells_moments → (raw : Raw) (records : List Raw) → body.now ≡ body_of raw → IsChange (format_of self.old) raw
            → PairIsWhole D.seen D.may_leave self.old records
            → WasInDoubt D.moment D.left_since self.old self.new (format_of self.old, records) (format_of self.old, records ++ raw ∷ []) }
        ensures full { IsErrOf result AppendFault.LogFull ↔ (half_bytes < (current_of self.old).used + length body.now) }
        ensures full_unchanged { IsErrOf result AppendFault.LogFull → self.new ≡ self.old }
        ensures later { AreLater D.faults self.old self.new }
        ensures failed { IsErrOf result AppendFault.DiskFault → Rose (D.faults self.old.zero.disk) (D.faults self.new.zero.disk)
            ⊎ Rose (D.faults self.old.one.disk) (D.faults self.new.one.disk) }
        ensures head { self.new.head ≡ self.old.head }
        ensures format { format_of self.new ≡ format_of self.old }
        ensures used { OnOk result ((current_of self.new).used ≡ (current_of self.old).used + length body.now) }
        ensures ready { OnOk result (LogIsReady D.seen D.may_leave (current_of self.new)) }
        ensures told_zero { is_some (D.seen self.new.zero.disk) ≡ is_some (D.seen self.old.zero.disk) }
        ensures told_one { is_some (D.seen self.new.one.disk) ≡ is_some (D.seen self.old.one.disk) }
    {
        match self.current {
            Half::Zero => self.zero.append(body),
            Half::One => self.one.append(body),
        }
    }

    /// Begins the other half with an image, in format 2: it is current once this has answered Ok. It takes no memory. A crash
    /// at any moment of the call leaves the records of the old half, or the new image alone.
    ///
    /// `DiskFault` (40) only where one of the disks has failed in this call, and then the pair is to be reloaded.
    pub fn save(&mut self, body: &[u8]) -> Result<(), DiskFault>
        requires body { (raw : Raw) × (body.now ≡ body_of raw) }
        requires fits { 9 + length body.now ≤ half_bytes }
        ensures saved { (raw : Raw) (records : List Raw) → body.now ≡ body_of raw → IsLaterImage records raw → PairIsWhole D.seen D.may_leave self.old records
            → OnOk result (PairIsWhole D.seen D.may_leave self.new (raw ∷ [])) }
        ensures doubt { (raw : Raw) (records : List Raw) → body.now ≡ body_of raw → IsLaterImage records raw → PairIsWhole D.seen D.may_leave self.old records
            → IsInDoubt D.may_leave self.new (format_of self.old, records) (2, raw ∷ []) }
        ensures any_moment { IsTrue D.tells_moments → (raw : Raw) (records : List Raw) → body.now ≡ body_of raw → IsLaterImage records raw
            → PairIsWhole D.seen D.may_leave self.old records
            → WasInDoubt D.moment D.left_since self.old self.new (format_of self.old, records) (2, raw ∷ []) }
        ensures later { AreLater D.faults self.old self.new }
        ensures failed { OnErr result (Rose (D.faults self.old.zero.disk) (D.faults self.new.zero.disk)
            ⊎ Rose (D.faults self.old.one.disk) (D.faults self.new.one.disk)) }
        ensures head { self.new.head ≡ self.old.head }
        ensures format { OnOk result (format_of self.new ≡ 2) }
        ensures used { OnOk result ((current_of self.new).used ≡ 9 + length body.now) }
        ensures ready { OnOk result (LogIsReady D.seen D.may_leave (current_of self.new)) }
        ensures told_zero { is_some (D.seen self.new.zero.disk) ≡ is_some (D.seen self.old.zero.disk) }
        ensures told_one { is_some (D.seen self.new.one.disk) ≡ is_some (D.seen self.old.one.disk) }
    {
        match self.current {
            Half::Zero => {
                let head = Half::One.head(&self.head, 2);
                begin(&mut self.one, head, body)?;
                self.current = Half::One;
                Ok(())
            }
            Half::One => {
                let head = Half::Zero.head(&self.head, 2);
                begin(&mut self.zero, head, body)?;
                self.current = Half::Zero;
                Ok(())
            }
        }
    }

    /// Makes a pair of two disks, whatever they held: cuts half 1 to 0 bytes and syncs it, formats half 0 in the format of the
    /// head, and appends the first record, the body of an Image record of generation 0 in that format. Once it has
    /// answered Ok, every crash before the next `append` or `save` leaves this record alone in half 0, and half 1 empty.
    ///
    /// `DiskFault` (40) only where one of the disks has failed in this call. Wherever the calls of the disks end, that of half 0 is
    /// untouched, or half 1 is empty after every crash: no older half 1 comes to stand beside a new half 0.
    pub fn new(a: D, b: D, head: [u8; 7], first: &[u8]) -> Result<Pair<D>, (D, D, DiskFault)>
        requires body { (raw : Raw) × (first.now ≡ body_of raw) }
        requires fits { 9 + length first.now ≤ half_bytes }
        ensures made { (raw : Raw) → first.now ≡ body_of raw → IsFormat (slice_index head 4) → AreRecoverable (slice_index head 4) (raw ∷ [])
            → IfSome (D.seen a) (λ _. IfSome (D.seen b) (λ _.
            IfOk result (λ pair. PairIsWhole D.seen D.may_leave pair (raw ∷ [])))) }
        ensures alone { (raw : Raw) → first.now ≡ body_of raw → IfSome (D.seen a) (λ _. IfOk result (λ pair. (c : List ℕ) → D.may_leave pair.zero.disk c
            → HalfHolds (half_head head (slice_index head 4) Half.Zero) (raw ∷ []) c × (length c ≡ 9 + length first.now))) }
        ensures empty { IfSome (D.seen b) (λ _. IfOk result (λ pair. Only [] (D.may_leave pair.one.disk))) }
        ensures head { IfOk result (λ pair. pair.head ≡ head) }
        ensures format { IfOk result (λ pair. format_of pair ≡ slice_index head 4) }
        ensures used { IfOk result (λ pair. (current_of pair).used ≡ 9 + length first.now) }
        ensures ready { IfOk result (λ pair. LogIsReady D.seen D.may_leave (current_of pair)) }
        ensures told { IfOk result (λ pair. (is_some (D.seen pair.zero.disk) ≡ is_some (D.seen a)) × (is_some (D.seen pair.one.disk) ≡ is_some (D.seen b))) }
        ensures order { IfErr result (λ given. (given.0 ≡ a) ⊎ IfSome (D.seen b) (λ _. Only [] (D.may_leave given.1))) }
        ensures told_err { IfErr result (λ given. (is_some (D.seen given.0) ≡ is_some (D.seen a)) × (is_some (D.seen given.1) ≡ is_some (D.seen b))) }
        ensures later { IfOk result (λ pair. (D.faults a ≤ D.faults pair.zero.disk) × (D.faults b ≤ D.faults pair.one.disk)) }
        ensures later_err { IfErr result (λ given. (D.faults a ≤ D.faults given.0) × (D.faults b ≤ D.faults given.1)) }
        ensures failed { IfErr result (λ given. Rose (D.faults a) (D.faults given.0) ⊎ Rose (D.faults b) (D.faults given.1)) }
    {
        let zero = Half::Zero.head(&head, head[4]);
        let mut pair = Pair::unread(a, b, head);
        match pair.make(zero, first) {
            Ok(()) => Ok(pair),
            Err(fault) => {
                let (a, b) = pair.into_disks();
                Err((a, b, fault))
            }
        }
    }

    /// Opens the pair of two disks and hands out the records of the recoverable half that has the greater generation, half 0
    /// where they are equal. A half may have either format, whatever that of the head is. It syncs each disk before it reads
    /// it, so every later crash leaves what is handed out. The memory that it takes is in proportion to the two files.
    ///
    /// `NoMemory` (1); `DiskFault` (40) only where one of the disks has failed in this call; `NotOurs` (42) exactly where neither
    /// half is recoverable.
    pub fn load(
        alloc: Global,
        a: D,
        b: D,
        head: [u8; 7],
    ) -> Result<(Pair<D>, RawRecords), (D, D, OpenFault)>
        ensures found { IfSome (D.seen a) (λ zero. IfSome (D.seen b) (λ one. IfOk result (λ loaded. Finds head zero one loaded.1))) }
        ensures whole { IfSome (D.seen a) (λ _. IfSome (D.seen b) (λ _. IfOk result (λ loaded. PairIsWhole D.seen D.may_leave loaded.0 loaded.1))) }
        ensures only_records { IfSome (D.seen a) (λ zero. IfSome (D.seen b)
            (λ one. IfOk result (λ loaded. (others : List Raw) → Finds head zero one others → others ≡ loaded.1))) }
        ensures not_ours { IfSome (D.seen a) (λ zero. IfSome (D.seen b) (λ one. IfErr result (λ given. given.2 ≡ OpenFault.NotOurs
            → (half : Half) (records : List Raw) → IsRecoverable head half (of_half half zero one) records → ⊥))) }
        ensures head { IfOk result (λ loaded. loaded.0.head ≡ head) }
        ensures only_read { IfOk result (λ loaded. IsOnlyRead D.seen D.may_leave a loaded.0.zero.disk × IsOnlyRead D.seen D.may_leave b loaded.0.one.disk) }
        ensures only_read_err { IfErr result (λ given. IsOnlyRead D.seen D.may_leave a given.0 × IsOnlyRead D.seen D.may_leave b given.1) }
        ensures failed { IfErr result (λ given. given.2 ≡ OpenFault.DiskFault → Rose (D.faults a) (D.faults given.0) ⊎ Rose (D.faults b) (D.faults given.1)) }
    {
        let mut pair = Pair::unread(a, b, head);
        match pair.reload(alloc) {
            Ok(read) => Ok((pair, read.raws)),
            Err(fault) => {
                let (a, b) = pair.into_disks();
                Err((a, b, fault))
            }
        }
    }

    /// `load` over the pair's own two disks, also after a `DiskFault`; what the records spell comes with them. On an `Err` the pair is as
    /// it was: the disks read the same.
    pub fn reload(&mut self, alloc: Global) -> Result<HalfRecords, OpenFault>
        ensures found { IfSome (D.seen self.old.zero.disk) (λ zero. IfSome (D.seen self.old.one.disk)
            (λ one. IfOk result (λ read. Finds self.old.head zero one read.raws))) }
        ensures whole { IfSome (D.seen self.old.zero.disk) (λ _. IfSome (D.seen self.old.one.disk)
            (λ _. IfOk result (λ read. PairIsWhole D.seen D.may_leave self.new read.raws))) }
        ensures only_records { IfSome (D.seen self.old.zero.disk) (λ zero. IfSome (D.seen self.old.one.disk)
            (λ one. IfOk result (λ read. (others : List Raw) → Finds self.old.head zero one others → others ≡ read.raws))) }
        // What was in doubt is settled.
        ensures settled { (before after : Content) → IsInDoubt D.may_leave self.old before after → PairTells D.seen self.old
            → IfOk result (λ read. ((read.raws ≡ before.1) × (format_of self.new ≡ before.0)) ⊎ ((read.raws ≡ after.1) × (format_of self.new ≡ after.0))) }
        ensures not_ours { IfSome (D.seen self.old.zero.disk) (λ zero. IfSome (D.seen self.old.one.disk) (λ one. IsErrOf result OpenFault.NotOurs
            → (half : Half) (records : List Raw) → IsRecoverable self.old.head half (of_half half zero one) records → ⊥)) }
        ensures err { OnErr result ((records : List Raw) → PairIsWhole D.seen D.may_leave self.old records → PairIsWhole D.seen D.may_leave self.new records) }
        ensures same_err { OnErr result (((current_of self.new).used ≡ (current_of self.old).used) × (format_of self.new ≡ format_of self.old)) }
        ensures ready { OnOk result (LogIsReady D.seen D.may_leave (current_of self.new)) }
        ensures ready_err { OnErr result (LogIsReady D.seen D.may_leave (current_of self.old) → LogIsReady D.seen D.may_leave (current_of self.new)) }
        ensures used { IfOk result (λ read. ((current_of self.new).used ≡ 9 + length (blocks read.raws)) × ((current_of self.new).used < 2 ^ 64)) }
        ensures recoverable { IfOk result (λ read. AreRecoverable (format_of self.new) read.raws) }
        ensures spelled { IfOk result (λ read. AllZip (SpellsRecord (format_of self.new)) read.raws read.records.items) }
        ensures known { OnOk result (IsFormat (format_of self.new)) }
        ensures head { self.new.head ≡ self.old.head }
        ensures zero { IsOnlyRead D.seen D.may_leave self.old.zero.disk self.new.zero.disk }
        ensures one { IsOnlyRead D.seen D.may_leave self.old.one.disk self.new.one.disk }
        ensures any_moment { IsTrue D.tells_moments → LeavesOnly D.moment D.left_since self.old.zero.disk self.new.zero.disk (D.may_leave self.old.zero.disk)
            × LeavesOnly D.moment D.left_since self.old.one.disk self.new.one.disk (D.may_leave self.old.one.disk) }
        ensures later { AreLater D.faults self.old self.new }
        ensures failed { IsErrOf result OpenFault.DiskFault → Rose (D.faults self.old.zero.disk) (D.faults self.new.zero.disk)
            ⊎ Rose (D.faults self.old.one.disk) (D.faults self.new.one.disk) }
    {
        let taken = self.find(alloc)?;
        match taken {
            Some((half, found)) => Ok(self.take(half, found)),
            None => Err(OpenFault::NotOurs),
        }
    }

    /// The half that a restart takes, with what was read of it; `None` where neither is recoverable. Of the other half no more is read
    /// than its generation, unless that comes first.
    fn find(&mut self, alloc: Global) -> Result<Option<(Half, FoundRecords)>, OpenFault>
        ensures some { IfOk result (λ found. IfSome found (λ taken. HalfIsFound D.seen D.may_leave self.old.head taken.0
            (of_half taken.0 self.old.zero self.old.one).disk (of_half taken.0 self.new.zero self.new.one).disk taken.1)) }
        ensures older { IfSome (D.seen self.old.zero.disk) (λ zero. IfSome (D.seen self.old.one.disk) (λ one. IfOk result (λ found. IfSome found
            (λ taken. IsOlder self.old.head (other taken.0) (of_half (other taken.0) zero one) (generation taken.1.opened.records))))) }
        ensures none { IfSome (D.seen self.old.zero.disk) (λ zero. IfSome (D.seen self.old.one.disk) (λ one. IfOk result (λ found. IsNone found
            → (half : Half) (records : List Raw) → IsRecoverable self.old.head half (of_half half zero one) records → ⊥))) }
        ensures durable { OnOk result (PairIsDurable D.seen D.may_leave self.old self.new) }
        ensures ours { IsErrOf result OpenFault.NotOurs → ⊥ }
        ensures still { PairStandsStill self.old self.new }
        ensures zero { IsOnlyRead D.seen D.may_leave self.old.zero.disk self.new.zero.disk }
        ensures one { IsOnlyRead D.seen D.may_leave self.old.one.disk self.new.one.disk }
        ensures any_moment { IsTrue D.tells_moments → LeavesOnly D.moment D.left_since self.old.zero.disk self.new.zero.disk (D.may_leave self.old.zero.disk)
            × LeavesOnly D.moment D.left_since self.old.one.disk self.new.one.disk (D.may_leave self.old.one.disk) }
        ensures later { AreLater D.faults self.old self.new }
        ensures failed { IsErrOf result OpenFault.DiskFault → Rose (D.faults self.old.zero.disk) (D.faults self.new.zero.disk)
            ⊎ Rose (D.faults self.old.one.disk) (D.faults self.new.one.disk) }
    {
        let half = self.newer(alloc)?;
        let mine = self.read(alloc, half)?;
        if let Some(found) = mine {
            return Ok(Some((half, found)));
        }
        let spare = half.other();
        let theirs = self.read(alloc, spare)?;
        match theirs {
            Some(found) => Ok(Some((spare, found))),
            None => Ok(None),
        }
    }

    /// The half that comes first by its generation: syncs both disks, and reads no more of them.
    fn newer(&mut self, alloc: Global) -> Result<Half, OpenFault>
        ensures behind { IfSome (D.seen self.old.zero.disk) (λ zero. IfSome (D.seen self.old.one.disk) (λ one. IfOk result
            (λ half. HalfIsBehind (other half) (first_number (of_half (other half) zero one)) (first_number (of_half half zero one))))) }
        ensures durable { OnOk result (PairIsDurable D.seen D.may_leave self.old self.new) }
        ensures ours { IsErrOf result OpenFault.NotOurs → ⊥ }
        ensures still { PairStandsStill self.old self.new }
        ensures zero { IsOnlyRead D.seen D.may_leave self.old.zero.disk self.new.zero.disk }
        ensures one { IsOnlyRead D.seen D.may_leave self.old.one.disk self.new.one.disk }
        ensures any_moment { IsTrue D.tells_moments → LeavesOnly D.moment D.left_since self.old.zero.disk self.new.zero.disk (D.may_leave self.old.zero.disk)
            × LeavesOnly D.moment D.left_since self.old.one.disk self.new.one.disk (D.may_leave self.old.one.disk) }
        ensures later { AreLater D.faults self.old self.new }
        ensures failed { IsErrOf result OpenFault.DiskFault → Rose (D.faults self.old.zero.disk) (D.faults self.new.zero.disk)
            ⊎ Rose (D.faults self.old.one.disk) (D.faults self.new.one.disk) }
    {
        let zero = self.zero.first_number(alloc)?;
        let one = self.one.first_number(alloc)?;
        if zero < one {
            Ok(Half::One)
        } else {
            Ok(Half::Zero)
        }
    }

    /// Reads a half with what its records spell; `None` where it is not recoverable.
    fn read(&mut self, alloc: Global, half: Half) -> Result<Option<FoundRecords>, OpenFault>
        ensures some { IfOk result (λ read. IfSome read (HalfIsFound D.seen D.may_leave self.old.head half (of_half half self.old.zero self.old.one).disk
            (of_half half self.new.zero self.new.one).disk)) }
        ensures none { IfSome (D.seen (of_half half self.old.zero self.old.one).disk) (λ file. IfOk result (λ read. IsNone read
            → (records : List Raw) → IsRecoverable self.old.head half file records → ⊥)) }
        ensures ours { IsErrOf result OpenFault.NotOurs → ⊥ }
        ensures still { PairStandsStill self.old self.new }
        ensures zero { IsOnlyRead D.seen D.may_leave self.old.zero.disk self.new.zero.disk }
        ensures one { IsOnlyRead D.seen D.may_leave self.old.one.disk self.new.one.disk }
        ensures any_moment { IsTrue D.tells_moments → LeavesOnly D.moment D.left_since self.old.zero.disk self.new.zero.disk (D.may_leave self.old.zero.disk)
            × LeavesOnly D.moment D.left_since self.old.one.disk self.new.one.disk (D.may_leave self.old.one.disk) }
        ensures later { AreLater D.faults self.old self.new }
        ensures failed { IsErrOf result OpenFault.DiskFault → Rose (D.faults self.old.zero.disk) (D.faults self.new.zero.disk)
            ⊎ Rose (D.faults self.old.one.disk) (D.faults self.new.one.disk) }
    {
        match half {
            Half::Zero => find_half(alloc, &mut self.zero, &self.head, half),
            Half::One => find_half(alloc, &mut self.one, &self.head, half),
        }
    }

    /// A pair of two disks that are not read or written yet, whatever they hold: its first call is to be `reload`.
    pub fn unread(a: D, b: D, head: [u8; 7]) -> Pair<D>
        ensures zero { result.zero.disk ≡ a }
        ensures one { result.one.disk ≡ b }
        ensures head { result.head ≡ head }
        ensures current { result.current ≡ Half.Zero }
    {
        Pair {
            zero: ChunkLog::new(a, [0; 8]),
            one: ChunkLog::new(b, [0; 8]),
            current: Half::Zero,
            head,
        }
    }

    /// Empties half 1, and begins half 0 with the first record.
    fn make(&mut self, head: [u8; 8], first: &[u8]) -> Result<(), DiskFault>
        requires body { (raw : Raw) × (first.now ≡ body_of raw) }
        requires fits { 9 + length first.now ≤ half_bytes }
        ensures begun { (raw : Raw) → first.now ≡ body_of raw → IfSome (D.seen self.old.zero.disk)
            (λ _. OnOk result (IfSome (D.seen self.new.zero.disk) (LogIsAtRest head self.new.zero.used (D.may_leave self.new.zero.disk) (raw ∷ [])))) }
        ensures length { IfSome (D.seen self.old.zero.disk) (λ _. OnOk result
            (IfSome (D.seen self.new.zero.disk) (λ file. length file ≡ 9 + length first.now))) }
        ensures empty { IfSome (D.seen self.old.one.disk) (λ _. OnOk result (Only [] (D.may_leave self.new.one.disk))) }
        ensures order { OnErr result ((self.new.zero.disk ≡ self.old.zero.disk)
            ⊎ IfSome (D.seen self.old.one.disk) (λ _. Only [] (D.may_leave self.new.one.disk))) }
        ensures told_zero { is_some (D.seen self.new.zero.disk) ≡ is_some (D.seen self.old.zero.disk) }
        ensures told_one { is_some (D.seen self.new.one.disk) ≡ is_some (D.seen self.old.one.disk) }
        ensures log { OnOk result (self.new.zero.head ≡ head) }
        ensures used { OnOk result (self.new.zero.used ≡ 9 + length first.now) }
        ensures current { self.new.current ≡ self.old.current }
        ensures head { self.new.head ≡ self.old.head }
        ensures later { AreLater D.faults self.old self.new }
        ensures failed { OnErr result (Rose (D.faults self.old.zero.disk) (D.faults self.new.zero.disk)
            ⊎ Rose (D.faults self.old.one.disk) (D.faults self.new.one.disk)) }
    {
        match empty(&mut self.one.disk) {
            Ok(()) => begin(&mut self.zero, head, first),
            Err(_) => Err(DiskFault),
        }
    }

    /// Goes on from what was found in a half, which is current from now on, and hands out its records.
    fn take(&mut self, half: Half, found: FoundRecords) -> HalfRecords
        ensures raws { result.raws ≡ found.opened.records }
        ensures records { result.records ≡ found.records }
        ensures current { self.new.current ≡ half }
        ensures head { self.new.head ≡ self.old.head }
        ensures log_head { (of_half half self.new.zero self.new.one).head ≡ found.opened.head }
        ensures log_used { (of_half half self.new.zero self.new.one).used ≡ found.opened.used }
        ensures zero { self.new.zero.disk ≡ self.old.zero.disk }
        ensures one { self.new.one.disk ≡ self.old.one.disk }
    {
        let FoundRecords { opened, records } = found;
        self.current = half;
        let raws = match half {
            Half::Zero => self.zero.resume(opened),
            Half::One => self.one.resume(opened),
        };
        HalfRecords { raws, records }
    }
}
