//! Which halves are recoverable.
ghost use Rattle.std.specs.Prelude.{◌≡◌, ◌≤◌, ◌<◌, ◌^◌, ◌↔◌, ◌+◌, ℕ, List, IfOk, IfSome, IsErrOf, IsNone, IsSome, IsTrue, Some, length};
ghost use Rattle.std.specs.List.{AllZip};
ghost use Rattle.pf_disk.specs.Causes.{Rose};
ghost use Rattle.pf_chunklog.specs.Records.{Raw, blocks};
ghost use Rattle.pf_chunklog.specs.Logs.{LogIsAtRest, IsOnlyRead, LeavesOnly};
ghost use Rattle.pf_image.specs.Recovery.{AreRecoverable, IsHead, KindIsInPlace, IsRecoverable, IsSpelled, SpellsRecord};
ghost use Rattle.pf_image.specs.Found.{FoundIsSound, HalfIsFound, IsUsable};

use crate::Half;
use pf_base::{NoMemory, Piece};
use pf_chunklog::{ChunkLog, OpenFault, Opened, RawRecords};
use pf_codec::read_record;
use pf_disk::Disk;
use pf_entry::Record;
use std::alloc::Global;

/// The kind of an image.
const IMAGE: u8 = 1;

/// The records of a half, as they lie there, and what they spell, one by one.
#[derive(Drop)]
pub struct HalfRecords {
    pub raws: RawRecords,
    pub records: Vec<Record>,
}

/// What was read of a recoverable half.
#[derive(Drop)]
pub struct FoundRecords {
    pub opened: Opened,
    /// What its records spell, one by one.
    pub records: Vec<Record>,
}

/// The record that a kind and a payload spell as the format wants; `None` where they spell none.
fn read_spelled(
    alloc: Global,
    format: u8,
    kind: u8,
    payload: &Piece,
) -> Result<Option<Record>, NoMemory>
    ensures some { IfOk result (λ found. IfSome found (SpellsRecord format (kind, payload.now))) }
    ensures none { IfOk result (λ found. IsNone found → IsSpelled format (kind, payload.now) → ⊥) }
{
    read_record(alloc, format, kind, payload)
}

/// Whether a record of this kind stands at this place of a recoverable half: an image first and nowhere else.
fn is_in_place(place: usize, kind: u8) -> bool
    ensures { IsTrue result ↔ KindIsInPlace place kind }
{
    (place == 0) == (kind == IMAGE)
}

/// What the records of a recoverable half spell; `None` where they are not those of one.
fn read_recoverable(
    alloc: Global,
    format: u8,
    raws: &RawRecords,
) -> Result<Option<Vec<Record>>, NoMemory>
    ensures recoverable { IfOk result (λ found. IsSome found ↔ AreRecoverable format raws.now) }
    ensures spelled { IfOk result (λ found. IfSome found (λ records. AllZip (SpellsRecord format) raws.now records.items)) }
{
    let mut records = Vec::with_capacity(alloc, raws.len())?;
    while let Some((kind, payload)) = raws.piece(records.len()) {
        if !is_in_place(records.len(), kind) {
            return Ok(None);
        }
        let Some(record) = read_spelled(alloc, format, kind, &payload)? else {
            return Ok(None);
        };
        records.push(record)?;
    }
    if records.is_empty() {
        return Ok(None);
    }
    Ok(Some(records))
}

/// Reads a half, and leaves its log as it was; `None` where it holds no records. What they spell is not looked at.
fn read_half<D: Disk>(
    alloc: Global,
    log: &mut ChunkLog<D>,
    head: &[u8; 7],
    half: Half,
) -> Result<Option<Opened>, OpenFault>
    ensures some { IfSome (D.seen log.old.disk) (λ file. IfOk result (λ read. IfSome read
        (λ opened. LogIsAtRest opened.head opened.used (D.may_leave log.new.disk) opened.records file))) }
    ensures listed { IfOk result (λ read. IfSome read (λ opened. IsHead head.now opened.head half)) }
    ensures size { IfOk result (λ read. IfSome read (λ opened. (opened.used ≡ 9 + length (blocks opened.records)) × (opened.used < 2 ^ 64))) }
    ensures none { IfSome (D.seen log.old.disk) (λ file. IfOk result (λ read. IsNone read → (records : List Raw) → IsRecoverable head.now half file records
        → ⊥)) }
    ensures ours { IsErrOf result OpenFault.NotOurs → ⊥ }
    ensures head { log.new.head ≡ log.old.head }
    ensures used { log.new.used ≡ log.old.used }
    ensures only_read { IsOnlyRead D.seen D.may_leave log.old.disk log.new.disk }
    ensures any_moment { IsTrue D.tells_moments → LeavesOnly D.moment D.left_since log.old.disk log.new.disk (D.may_leave log.old.disk) }
    ensures later { D.faults log.old.disk ≤ D.faults log.new.disk }
    ensures failed { IsErrOf result OpenFault.DiskFault → Rose (D.faults log.old.disk) (D.faults log.new.disk) }
{
    let first = half.head(head, 1);
    let second = half.head(head, 2);
    match log.read(alloc, &[first, second]) {
        Ok(opened) => Ok(Some(opened)),
        Err(OpenFault::NotOurs) => Ok(None),
        Err(fault) => Err(fault),
    }
}

/// A half with what its records spell; `None` where it is not recoverable.
fn recovered(alloc: Global, read: Option<Opened>) -> Result<Option<FoundRecords>, NoMemory>
    ensures some { IfOk result (λ found. IfSome found (λ half_found. (read ≡ Some half_found.opened) × FoundIsSound half_found)) }
    ensures none { IfOk result (λ found. IsNone found → IfSome read (λ opened. IsUsable opened → ⊥)) }
{
    let Some(opened) = read else {
        return Ok(None);
    };
    let format = opened.head[4];
    let Some(records) = read_recoverable(alloc, format, &opened.records)? else {
        return Ok(None);
    };
    Ok(Some(FoundRecords { opened, records }))
}

/// Reads a half with what its records spell, and leaves its log as it was; `None` where it is not recoverable.
pub fn find_half<D: Disk>(
    alloc: Global,
    log: &mut ChunkLog<D>,
    head: &[u8; 7],
    half: Half,
) -> Result<Option<FoundRecords>, OpenFault>
    ensures some { IfOk result (λ found. IfSome found (HalfIsFound D.seen D.may_leave head.now half log.old.disk log.new.disk)) }
    ensures none { IfSome (D.seen log.old.disk) (λ file. IfOk result (λ found. IsNone found → (records : List Raw) → IsRecoverable head.now half file records
        → ⊥)) }
    ensures ours { IsErrOf result OpenFault.NotOurs → ⊥ }
    ensures head { log.new.head ≡ log.old.head }
    ensures used { log.new.used ≡ log.old.used }
    ensures only_read { IsOnlyRead D.seen D.may_leave log.old.disk log.new.disk }
    ensures any_moment { IsTrue D.tells_moments → LeavesOnly D.moment D.left_since log.old.disk log.new.disk (D.may_leave log.old.disk) }
    ensures later { D.faults log.old.disk ≤ D.faults log.new.disk }
    ensures failed { IsErrOf result OpenFault.DiskFault → Rose (D.faults log.old.disk) (D.faults log.new.disk) }
{
    let read = read_half(alloc, log, head, half)?;
    let found = recovered(alloc, read)?;
    Ok(found)
}
