//! Reading a file whole, and finding the records in its bytes.
ghost use Rattle.std.specs.Prelude.{◌≡◌, ◌≤◌, ◌+◌, ◌++◌, ◌∷◌, [], ℕ, List, Contains, IfOk, IfSome, IsErrOf, IsNone, IsTrue, OnOk, length, min, take};
ghost use Rattle.std.specs.List.{All};
ghost use Rattle.pf_disk.specs.Causes.{Rose};
ghost use Rattle.pf_disk.specs.Crashes.{Only};
ghost use Rattle.pf_chunklog.specs.Records.{Raw, HalfHolds, RecordIsSized, blocks, first_number};
ghost use Rattle.pf_chunklog.specs.Marks.{MarkIsWithin, raws_at};
ghost use Rattle.pf_chunklog.specs.Logs.{IsOnlyRead, LeavesOnly};

use crate::OpenFault;
use crate::records::Mark;
use pf_base::get_u64;
use pf_disk::Disk;
use std::alloc::{AllocError, Global};

/// Where the payload of the first record begins: behind the head, a gate, a kind and a length in four bytes.
const FIRST: usize = 14;

/// How many bytes there are up to the end of the number that this payload begins with.
pub const UP_TO_FIRST: u64 = 22;

/// How many bytes a read asks for.
const PIECE: usize = 4096;

/// The bytes at the front of a file, read in pieces: so many or more, as far as there are any.
pub fn read_front<D: Disk>(alloc: Global, disk: &mut D, len: u64) -> Result<Vec<u8>, OpenFault>
    ensures bytes { IfSome (D.seen disk.old) (λ file. IfOk result (λ bytes. bytes.items ≡ take (length bytes.items) file)) }
    ensures enough { IfSome (D.seen disk.old) (λ file. IfOk result (λ bytes. min len (length file) ≤ length bytes.items)) }
    ensures only_read { IsOnlyRead D.seen D.may_leave disk.old disk.new }
    ensures any_moment { IsTrue D.tells_moments → LeavesOnly D.moment D.left_since disk.old disk.new (D.may_leave disk.old) }
    ensures later { D.faults disk.old ≤ D.faults disk.new }
    ensures failed { IsErrOf result OpenFault.DiskFault → Rose (D.faults disk.old) (D.faults disk.new) }
    ensures ours { IsErrOf result OpenFault.NotOurs → ⊥ }
{
    let mut bytes = Vec::with_capacity(alloc, len as usize)?;
    let mut piece = [0u8; PIECE];
    while (bytes.len() as u64) < len {
        let count = disk.read(bytes.len() as u64, &mut piece)?;
        if count == 0 {
            break;
        }
        bytes.extend_from_slice(&piece[..count])?;
    }
    Ok(bytes)
}

/// The bytes of a file: syncs, so that every later crash leaves them, asks for the length, and reads in pieces.
pub fn read_whole<D: Disk>(alloc: Global, disk: &mut D) -> Result<Vec<u8>, OpenFault>
    ensures bytes { IfSome (D.seen disk.old) (λ file. IfOk result (λ bytes. bytes.items ≡ file)) }
    ensures durable { IfSome (D.seen disk.old) (λ file. OnOk result (Only file (D.may_leave disk.new))) }
    ensures only_read { IsOnlyRead D.seen D.may_leave disk.old disk.new }
    ensures any_moment { IsTrue D.tells_moments → LeavesOnly D.moment D.left_since disk.old disk.new (D.may_leave disk.old) }
    ensures later { D.faults disk.old ≤ D.faults disk.new }
    ensures failed { IsErrOf result OpenFault.DiskFault → Rose (D.faults disk.old) (D.faults disk.new) }
    ensures ours { IsErrOf result OpenFault.NotOurs → ⊥ }
{
    disk.sync()?;
    let len = disk.len()?;
    read_front(alloc, disk, len)
}

/// The number in the first eight bytes of the first record's payload; 0 where the bytes end before.
pub fn first_number(bytes: &[u8]) -> u64
    ensures { result ≡ first_number bytes.now }
{
    get_u64(bytes, FIRST).unwrap_or(0)
}

/// The head that the bytes begin with, and the bytes behind it.
pub fn behind_head<'a>(heads: &'a [[u8; 8]], bytes: &'a [u8]) -> Option<(&'a [u8; 8], &'a [u8])>
    ensures some { IfSome result (λ found. Contains heads.now found.0.now × (bytes.now ≡ found.0.now ++ found.1.now)) }
    ensures none { IsNone result → (head rest : List ℕ) → Contains heads.now head → bytes.now ≡ head ++ rest → ⊥ }
{
    for head in heads {
        if let Some(rest) = bytes.strip_prefix(head) {
            return Some((head, rest));
        }
    }
    None
}

/// The open block at the front, where it is whole: its kind, its payload and the bytes behind it.
fn first_block(bytes: &[u8]) -> Option<(u8, &[u8], &[u8])>
    ensures some { IfSome result (λ found. (bytes.now ≡ blocks ((found.0, found.1.now) ∷ []) ++ found.2.now) × RecordIsSized (found.0, found.1.now)) }
    ensures none { IsNone result → (raw : Raw) (rest : List ℕ) → RecordIsSized raw → bytes.now ≡ blocks (raw ∷ []) ++ rest → ⊥ }
{
    let [1, kind, a, b, c, d, rest @ ..] = bytes else {
        return None;
    };
    let len = u32::from_be_bytes([*a, *b, *c, *d]) as usize;
    if rest.len() < len {
        return None;
    }
    let (payload, rest) = rest.split_at(len);
    Some((*kind, payload, rest))
}

/// Where the records at the front of the rest of a file stand, up to the first closed gate, and how many bytes they have without it;
/// `None` where no closed gate ends them.
pub fn split_records(
    alloc: Global,
    file: &[u8],
    rest: &[u8],
) -> Result<Option<(Vec<Mark>, usize)>, AllocError>
    requires { (front : List ℕ) × (file.now ≡ front ++ rest.now) }
    ensures inside { IfOk result (λ found. IfSome found (λ split. All (MarkIsWithin (length file.now)) split.0.items)) }
    ensures some { IfOk result (λ found. IfSome found (λ split. HalfHolds [] (raws_at file.now split.0.items) rest.now
        × (split.1 ≡ length (blocks (raws_at file.now split.0.items))))) }
    ensures none { IfOk result (λ found. IsNone found → (records : List Raw) → HalfHolds [] records rest.now → ⊥) }
{
    let mut marks = Vec::new(alloc);
    let mut left = rest;
    while let Some((kind, payload, after)) = first_block(left) {
        let to = file.len() - after.len();
        let from = to - payload.len();
        marks.push(Mark { kind, from, to })?;
        left = after;
    }
    let Some(gate) = left.first() else {
        return Ok(None);
    };
    if *gate == 1 {
        return Ok(None);
    }
    let size = rest.len() - left.len();
    Ok(Some((marks, size)))
}
