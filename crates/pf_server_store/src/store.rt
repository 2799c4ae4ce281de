//! Records that outlive a crash.
ghost use Rattle.std.specs.Prelude.{◌≡◌, ◌≢◌, ◌⊎◌, ◌+◌, ◌≤◌, ◌↔◌, Bool, ℕ, Err, IfOk, IsErrOf, IsTrue, OnErr, OnOk, false, length, true};
ghost use Rattle.pf_base.specs.Sizes.{half_bytes};
ghost use Rattle.pf_entry.specs.Records.{Durable, stored};
ghost use Rattle.pf_entry.specs.Sizes.{empty_half};
ghost use Rattle.pf_entry.specs.declared.records.Record.{Record as RecordIs};
ghost use Rattle.pf_server_store.specs.Stores.{IsImageOf, IsSpelledAs, RecordsStandFor, StandsStill, StoreModel};

use crate::{DiskFault, Found, ReloadFault};
use std::alloc::Global;

/// The records of one server on its two disks. A crash leaves what they stood for before the last record, or with it; the two
/// differ only after a call that failed, and the next `find` tells which of them is there.
///
/// Where a disk does not tell its content, nothing is known of what is found.
pub trait Store {
    /// What is known of a store.
    ghost model: { StoreModel Self };

    /// The used bytes of the current half.
    fn used_bytes(&self) -> u64
        ensures { result ≡ model.used self.now };

    /// Whether a body of so many bytes still fits the current half.
    fn has_room(&self, len: u64) -> bool
        ensures { IsTrue result ↔ (model.used self.now + len ≤ half_bytes) };

    /// Memory for the body of a record, whatever stands in it: that which was kept last, where there is some. Where it is not kept again,
    /// the next is new.
    fn lend(&mut self, alloc: Global) -> Vec<u8>
        ensures { self.new ≡ self.old };

    /// Keeps memory that was lent, unless it is large.
    fn keep(&mut self, memory: Vec<u8>)
        ensures { self.new ≡ self.old };

    /// Adds a record to the current half. It takes no memory.
    fn append(&mut self, body: &[u8]) -> Result<(), DiskFault>
        requires whole { (d : Durable) × model.holds self.old d d }
        requires record { (r : RecordIs) × IsSpelledAs (model.format self.old) r body.now }
        requires room { model.used self.old + length body.now ≤ half_bytes }
        ensures ok { OnOk result ((d : Durable) (r : RecordIs) → model.holds self.old d d → IsSpelledAs (model.format self.old) r body.now
            → model.holds self.new (stored d r) (stored d r)) }
        ensures err { OnErr result ((d : Durable) (r : RecordIs) → model.holds self.old d d → IsSpelledAs (model.format self.old) r body.now
            → model.holds self.new d (stored d r)) }
        ensures any_moment { (d : Durable) (r : RecordIs) → model.holds self.old d d → IsSpelledAs (model.format self.old) r body.now
            → model.was self.old self.new d (stored d r) }
        ensures used { OnOk result (model.used self.new ≡ model.used self.old + length body.now) }
        ensures format { OnOk result (model.format self.new ≡ model.format self.old) }
        ensures told { model.told self.new ≡ model.told self.old }
        ensures cause { OnErr result (model.rose self.old self.new) };

    /// Begins the other half with an image of the next generation, which is current afterwards. It takes no memory.
    fn save(&mut self, body: &[u8]) -> Result<(), DiskFault>
        requires whole { (d : Durable) × model.holds self.old d d × ((r : RecordIs) × IsImageOf d r body.now) }
        requires room { empty_half + length body.now ≤ half_bytes }
        ensures ok { OnOk result ((d : Durable) (r : RecordIs) → model.holds self.old d d → IsImageOf d r body.now
            → model.holds self.new (stored d r) (stored d r)) }
        ensures err { OnErr result ((d : Durable) (r : RecordIs) → model.holds self.old d d → IsImageOf d r body.now → model.holds self.new d (stored d r)) }
        ensures any_moment { (d : Durable) (r : RecordIs) → model.holds self.old d d → IsImageOf d r body.now → model.was self.old self.new d (stored d r) }
        ensures used { OnOk result (model.used self.new ≡ empty_half + length body.now) }
        ensures format { OnOk result (model.format self.new ≡ 2) }
        ensures told { model.told self.new ≡ model.told self.old }
        ensures cause { OnErr result (model.rose self.old self.new) };

    /// Reads the records, also after a call that failed: the state without the record in doubt, or with it. The store stands where
    /// it stood, and goes on from what was found only after `resume`. No crash changes what was found, and a count of faults that
    /// rises afterwards has risen since before. `NoMemory` (1) and `DiskFault` (40) leave both states possible; `NotOurs` (42) comes
    /// only where a disk does not tell its content.
    fn find(&mut self, alloc: Global) -> Result<Found, ReloadFault>
        ensures found { IsTrue (model.told self.old) → IfOk result (λ found. (before after : Durable) → model.holds self.old before after
            → (d : Durable) × (d ≡ before ⊎ d ≡ after) × RecordsStandFor found d × model.holds (model.resumed self.new) d d) }
        ensures whole { IfOk result (λ found. (d : Durable) × RecordsStandFor found d × model.holds (model.resumed self.new) d d) }
        ensures state { IfOk result (λ found. (model.used (model.resumed self.new) ≡ found.used) × (model.format (model.resumed self.new) ≡ found.format)) }
        ensures still { StandsStill model self.old self.new }
        ensures any_moment { (before after : Durable) → model.holds self.old before after → model.was self.old self.new before after }
        ensures ours { (before after : Durable) → model.holds self.old before after → IsTrue (model.told self.old) → result ≢ Err ReloadFault.NotOurs }
        ensures told { model.told self.new ≡ model.told self.old }
        ensures cause { IsErrOf result ReloadFault.DiskFault → model.rose self.old self.new }
        ensures later { (next : Self) → model.rose self.new next → model.rose self.old next };

    /// Goes on from what the last `find` found. Nothing is read or written.
    fn resume(&mut self)
        ensures resumed { self.new ≡ model.resumed self.old }
        ensures any_moment { (earlier : Self) (before after : Durable) → model.was earlier self.old before after → model.was earlier self.new before after }
        ensures told { model.told self.new ≡ model.told self.old }
        ensures later { (next : Self) → model.rose self.new next → model.rose self.old next };
}
