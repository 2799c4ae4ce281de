//! Records on two disks.
ghost use Rattle.std.specs.Prelude.{◌≡◌, ◌≢◌, ◌⊎◌, ◌+◌, ◌≤◌, ◌<◌, ◌^◌, ◌&&◌, [], ◌∷◌, Err, IfErr, IfOk, IfSome, IsErrOf, IsTrue, is_some, length, slice_index};
ghost use Rattle.pf_base.specs.Sizes.{half_bytes};
ghost use Rattle.pf_disk.specs.Causes.{Rose};
ghost use Rattle.pf_chunklog.specs.declared.errors.OpenFault.TheVariants.{DiskFault as disk_failed, NotOurs as not_ours};
ghost use Rattle.pf_entry.specs.Records.{Durable};
ghost use Rattle.pf_entry.specs.declared.records.Record.{Record as RecordIs};
ghost use Rattle.pf_server_store.specs.Stores.{RecordsStandFor, state_of_records};
ghost use Rattle.pf_image.specs.Pairs.{AreLater, current_of, format_of};
ghost use Rattle.pf_disk_store.specs.Model.{kept_model};
ghost use Rattle.pf_disk_store.specs.Kept.{FindsState, IsFirstImage, IsKept, IsReread, LeavesStates, OneRose, PairWentOn, tells};

use crate::spare::SpareBytes;
use pf_chunklog::{AppendFault, OpenFault};
use pf_disk::Disk;
use pf_image::{HalfRecords, Pair, PairPlace};
use pf_server_store::{DiskFault, Found, ReloadFault, Store};
use std::alloc::Global;

/// The records of a server on two disks that nobody else writes.
#[derive(Drop)]
pub struct Kept<D: Disk> {
    pair: Pair<D>,
    found: PairPlace,
    spare: SpareBytes,
}

/// A store that stands where its pair does.
fn over<D: Disk>(pair: Pair<D>) -> Kept<D>
    ensures { result.pair ≡ pair }
{
    let found = pair.place();
    let spare = SpareBytes::none();
    Kept { pair, found, spare }
}

/// What a store names a fault of opening a half.
fn named(fault: OpenFault) -> ReloadFault
    ensures disk { result ≡ ReloadFault.DiskFault → fault ≡ disk_failed }
    ensures ours { result ≡ ReloadFault.NotOurs → fault ≡ not_ours }
{
    match fault {
        OpenFault::NoMemory => ReloadFault::NoMemory,
        OpenFault::DiskFault => ReloadFault::DiskFault,
        OpenFault::NotOurs => ReloadFault::NotOurs,
    }
}

impl<D: Disk> Kept<D> {
    /// Makes a store of two disks, whatever they held: half 0 begins with this image, the body of an Image record of
    /// generation 0 in the format of the head, and half 1 is empty.
    ///
    /// `DiskFault` (40) only where one of the disks has failed in this call.
    pub fn new(a: D, b: D, head: [u8; 7], first: &[u8]) -> Result<Kept<D>, (D, D, DiskFault)>
        requires first { (r : RecordIs) × IsFirstImage (slice_index head 4) r first.now }
        requires fits { 9 + length first.now ≤ half_bytes }
        ensures holds { IfOk result (λ kept. (r : RecordIs) → IsFirstImage (slice_index head 4) r first.now
            → let d = state_of_records (slice_index head 4) (r ∷ []) in IsKept D.seen D.may_leave kept.pair d d) }
        ensures used { IfOk result (λ kept. (current_of kept.pair).used ≡ 9 + length first.now) }
        ensures format { IfOk result (λ kept. format_of kept.pair ≡ slice_index head 4) }
        ensures head { IfOk result (λ kept. kept.pair.head ≡ head) }
        ensures told { IfOk result (λ kept. tells D.seen kept.pair ≡ (is_some (D.seen a) && is_some (D.seen b))) }
        ensures told_err { IfErr result (λ given. (is_some (D.seen given.0) ≡ is_some (D.seen a)) × (is_some (D.seen given.1) ≡ is_some (D.seen b))) }
        ensures later { IfOk result (λ kept. (D.faults a ≤ D.faults kept.pair.zero.disk) × (D.faults b ≤ D.faults kept.pair.one.disk)) }
        ensures later_err { IfErr result (λ given. (D.faults a ≤ D.faults given.0) × (D.faults b ≤ D.faults given.1)) }
        ensures failed { IfErr result (λ given. Rose (D.faults a) (D.faults given.0) ⊎ Rose (D.faults b) (D.faults given.1)) }
    {
        match Pair::new(a, b, head, first) {
            Ok(pair) => Ok(over(pair)),
            Err((a, b, _)) => Err((a, b, DiskFault)),
        }
    }

    /// A store over two disks that are not read or written yet, whatever they hold: its first call is to be `find`. Where a
    /// restart finds one of two states in what they hold, in halves of this head, the store is in doubt between them.
    pub fn unread(a: D, b: D, head: [u8; 7]) -> Kept<D>
        ensures holds { (before after : Durable) → before ≢ after → LeavesStates head (D.may_leave a) (D.may_leave b) before after
            → IsKept D.seen D.may_leave result.pair before after }
        ensures zero { result.pair.zero.disk ≡ a }
        ensures one { result.pair.one.disk ≡ b }
        ensures head { result.pair.head ≡ head }
    {
        over(Pair::unread(a, b, head))
    }

    /// Gives the disks back, that of half 0 first. Whatever files a crash leaves of them, a restart finds the state of the
    /// records, or one of the two that are in doubt; and so it does in the files as they are.
    pub fn into_disks(self) -> (D, D)
        ensures left { (before after : Durable) → IsKept D.seen D.may_leave self.pair before after → IsTrue (tells D.seen self.pair)
            → LeavesStates self.pair.head (D.may_leave result.0) (D.may_leave result.1) before after }
        ensures seen { (before after : Durable) → IsKept D.seen D.may_leave self.pair before after → IsTrue (tells D.seen self.pair)
            → IfSome (D.seen result.0) (λ a. IfSome (D.seen result.1) (λ b. FindsState self.pair.head a b before ⊎ FindsState self.pair.head a b after)) }
        ensures zero { result.0 ≡ self.pair.zero.disk }
        ensures one { result.1 ≡ self.pair.one.disk }
    {
        self.pair.into_disks()
    }

    /// What the pair stands at, with the records that it read.
    fn found_in(&self, read: HalfRecords) -> Found
        ensures format { result.format ≡ format_of self.now.pair }
        ensures used { result.used ≡ (current_of self.now.pair).used }
        ensures records { result.records ≡ read.records }
    {
        let HalfRecords { raws: _, records } = read;
        Found {
            format: self.pair.format(),
            used: self.pair.used_bytes(),
            records,
        }
    }

    /// Reads the records, and stands where they were found. On an `Err` the pair may stand there too.
    fn read(&mut self, alloc: Global) -> Result<Found, ReloadFault>
        ensures found { IsTrue (tells D.seen self.old.pair) → IfOk result
            (λ found. (before after : Durable) → IsKept D.seen D.may_leave self.old.pair before after
            → (d : Durable) × (d ≡ before ⊎ d ≡ after) × RecordsStandFor found d × IsKept D.seen D.may_leave self.new.pair d d) }
        ensures whole { IfOk result (λ found. (d : Durable) × RecordsStandFor found d × IsKept D.seen D.may_leave self.new.pair d d) }
        ensures state { IfOk result (λ found. ((current_of self.new.pair).used ≡ found.used) × (format_of self.new.pair ≡ found.format)) }
        ensures reread { IsReread D.seen D.may_leave self.old.pair self.new.pair }
        ensures any_moment { (before after : Durable) → IsKept D.seen D.may_leave self.old.pair before after
            → PairWentOn D.seen D.faults D.moment D.left_since D.tells_moments self.old.pair self.new.pair before after }
        ensures ours { (before after : Durable) → IsKept D.seen D.may_leave self.old.pair before after → IsTrue (tells D.seen self.old.pair)
            → result ≢ Err ReloadFault.NotOurs }
        ensures later { AreLater D.faults self.old.pair self.new.pair }
        ensures cause { IsErrOf result ReloadFault.DiskFault → OneRose D.faults self.old.pair self.new.pair }
    {
        match self.pair.reload(alloc) {
            Ok(read) => Ok(self.found_in(read)),
            Err(fault) => Err(named(fault)),
        }
    }
}

impl<D: Disk> Store for Kept<D> {
    ghost model = { kept_model D.seen D.may_leave D.faults D.moment D.left_since D.tells_moments };

    fn used_bytes(&self) -> u64 {
        self.pair.used_bytes()
    }

    fn has_room(&self, len: u64) -> bool {
        self.pair.has_room(len)
    }

    fn lend(&mut self, alloc: Global) -> Vec<u8> {
        self.spare.take(alloc)
    }

    fn keep(&mut self, memory: Vec<u8>) {
        self.spare.keep(memory);
    }

    fn append(&mut self, body: &[u8]) -> Result<(), DiskFault> {
        match self.pair.append(body) {
            Ok(()) => Ok(()),
            Err(AppendFault::DiskFault) => Err(DiskFault),
            Err(AppendFault::LogFull) => unreachable!(),
        }
    }

    fn save(&mut self, body: &[u8]) -> Result<(), DiskFault> {
        match self.pair.save(body) {
            Ok(()) => Ok(()),
            Err(_) => Err(DiskFault),
        }
    }

    fn find(&mut self, alloc: Global) -> Result<Found, ReloadFault> {
        let stood = self.pair.place();
        let read = self.read(alloc);
        self.found = self.pair.place();
        self.pair.stand_at(stood);
        read
    }

    fn resume(&mut self) {
        self.pair.stand_at(self.found);
    }
}
