//! Bytes whose last part may be shared.
ghost use Rattle.std.specs.Prelude.{◌≡◌, ◌<◌, ◌++◌, IfOk, length, slice_set};
ghost use Rattle.std.specs.Option.{option_copied};
ghost use Rattle.pf_entry.specs.Lists.{Every};
ghost use Rattle.pf_codec.specs.Parsers.{AreBytes};
ghost use Rattle.pf_codec.specs.Tails.{tail_bytes};

use pf_base::{NoMemory, Payload, Sector};
use std::alloc::Global;
use std::marker::Model;

/// The bytes of something whose last part may be the sectors of a write. These are shared with whoever else holds them.
#[derive(Drop)]
pub struct Spelled {
    head: Vec<u8>,
    tail: Option<Payload>,
}

impl Model for Spelled {
    ghost use Rattle.std.specs.Prelude.{List, ℕ, ◌++◌};
    ghost use Rattle.pf_codec.specs.Tails.{tail_bytes};

    ghost Value = { List ℕ };

    ghost view = { λ s. s.head.items ++ tail_bytes s.tail };
}

impl Spelled {
    /// Bytes of which none are shared. This takes no memory.
    pub fn from_vec(bytes: Vec<u8>) -> Spelled
        ensures { result ≡ bytes.items }
    {
        Spelled {
            head: bytes,
            tail: None,
        }
    }

    /// Bytes, and the sectors behind them. This takes no memory.
    pub(crate) fn new(head: Vec<u8>, tail: Option<Payload>) -> Spelled
        ensures { result ≡ head.items ++ tail_bytes tail }
    {
        Spelled { head, tail }
    }

    /// The count of bytes.
    pub fn len(&self) -> usize
        ensures { result ≡ length self.now }
    {
        self.head.len() + bytes_of(self.tail.as_ref()).len()
    }

    /// A copy in which this byte stands at this place. Sectors that are shared stay shared, unless the place lies in them. The
    /// one error is `NoMemory` (1).
    pub fn with_byte(&self, alloc: Global, place: usize, byte: u8) -> Result<Spelled, NoMemory>
        requires { place < length self.now }
        ensures { IfOk result (λ copy. copy ≡ slice_set self.now place byte) }
    {
        let (mut head, tail) = self.copied_upto(alloc, place)?;
        head[place] = byte;
        Ok(Spelled { head, tail })
    }

    /// A copy of the bytes of its own, with all others behind them where the place lies in those, and else a share of those.
    fn copied_upto(
        &self,
        alloc: Global,
        place: usize,
    ) -> Result<(Vec<u8>, Option<Payload>), NoMemory>
        requires { place < length self.now }
        ensures place { IfOk result (λ parts. place < length parts.0.items) }
        ensures all { IfOk result (λ parts. parts.0.items ++ tail_bytes parts.1 ≡ self.now) }
    {
        let tail = self.tail.as_ref();
        let mut head = Vec::from_slice(alloc, &self.head)?;
        if place < head.len() {
            return Ok((head, clone_of(tail)?));
        }
        head.extend_from_slice(bytes_of(tail))?;
        Ok((head, None))
    }

    /// The bytes of its own, and the sectors behind them.
    pub(crate) fn parts(&self) -> (&[u8], Option<&Payload>)
        ensures all { result.0.now ++ tail_bytes (option_copied result.1) ≡ self.now }
        ensures bytes { AreBytes self.now }
    {
        let tail = self.tail.as_ref();
        are_bytes(&self.head);
        are_bytes(bytes_of(tail));
        (&self.head, tail)
    }
}

/// The sectors of a write, one after the other, where there are some.
pub(crate) fn bytes_of(tail: Option<&Payload>) -> &[u8]
    ensures { result.now ≡ tail_bytes (option_copied tail.entry) }
{
    match tail {
        Some(payload) => payload.as_slice().as_flattened(),
        None => &[],
    }
}

/// A share of the sectors of a write, where there are some.
fn clone_of(tail: Option<&Payload>) -> Result<Option<Payload>, NoMemory>
    ensures { IfOk result (λ same. same ≡ option_copied tail.entry) }
{
    match tail {
        Some(payload) => Ok(Some(payload.try_clone()?)),
        None => Ok(None),
    }
}

/// Each is a byte: their type says so, and after this the list that contracts see does too.
pub(crate) fn are_bytes(bytes: &[u8])
    ensures { AreBytes bytes.now }
{
    let _count = bytes.len();
}

/// Each sector has 512 bytes: its type says so, and after this the list that contracts see does too.
pub(crate) fn are_whole(sectors: &[Sector])
    ensures { Every (λ bytes. length bytes ≡ 512) sectors.now }
{
    let _count = sectors.len();
}
