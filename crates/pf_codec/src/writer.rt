//! Bytes that are written at the end.
ghost use Rattle.std.specs.Prelude.{◌≡◌, ◌≤◌, [], ◌++◌, IfOk, OnOk, length, replicate};
ghost use Rattle.std.specs.Int.{w16, w32, w64};
ghost use Rattle.pf_codec.specs.Spelling.{number, byte, range_bytes, sectors_in_row};
ghost use Rattle.pf_codec.specs.Tails.{tail_bytes};

use crate::{Spelled, ThinSectors};
use pf_base::{NoMemory, Payload, Range, SECTOR_BYTES};
use std::alloc::Global;
use std::marker::Model;

/// The bytes that were written so far. Each call puts the spelling of a value at their end; the one error is `NoMemory`
/// (1), after which the writer is of no more use.
///
/// The sectors of a write are shared, and not copied, while nothing is written behind them.
#[derive(Drop)]
pub struct Writer {
    bytes: Vec<u8>,
    tail: Option<Payload>,
}

impl Model for Writer {
    ghost use Rattle.std.specs.Prelude.{List, ℕ, ◌++◌};
    ghost use Rattle.pf_codec.specs.Tails.{tail_bytes};

    ghost Value = { List ℕ };

    ghost view = { λ w. w.bytes.items ++ tail_bytes w.tail };
}

impl Writer {
    /// No bytes yet.
    pub fn new(alloc: Global) -> Writer
        ensures { result ≡ [] }
    {
        Writer {
            bytes: Vec::new(alloc),
            tail: None,
        }
    }

    /// No bytes yet, and room for `room` of them, so that so many are written without taking memory again; sectors that are
    /// shared take none of it. The one error is `NoMemory` (1).
    pub fn with_room(alloc: Global, room: usize) -> Result<Writer, NoMemory>
        ensures { IfOk result (λ writer. writer ≡ []) }
    {
        Ok(Writer {
            bytes: Vec::with_capacity(alloc, room)?,
            tail: None,
        })
    }

    /// No bytes yet, in this memory, whatever stands in it; with room for `room` of them, as above. The one error is `NoMemory` (1).
    pub(crate) fn over(memory: Vec<u8>, room: usize) -> Result<Writer, NoMemory>
        ensures { IfOk result (λ writer. writer ≡ []) }
    {
        let mut bytes = memory;
        bytes.clear();
        bytes.reserve(room)?;
        Ok(Writer { bytes, tail: None })
    }

    /// All bytes, of which none are shared. The one error is `NoMemory` (1).
    pub fn into_vec(self) -> Result<Vec<u8>, NoMemory>
        ensures { IfOk result (λ bytes. bytes.items ≡ self) }
    {
        let Writer { mut bytes, tail } = self;
        flatten(&mut bytes, tail)?;
        Ok(bytes)
    }

    /// All bytes. The sectors of a write that was written last are shared. This takes no memory.
    pub fn into_spelled(self) -> Spelled
        ensures { result ≡ self }
    {
        let Writer { bytes, tail } = self;
        Spelled::new(bytes, tail)
    }

    /// These bytes.
    pub(crate) fn all(&mut self, bytes: &[u8]) -> Result<(), NoMemory>
        ensures { OnOk result (self.new ≡ self.old ++ bytes.now) }
    {
        flatten(&mut self.bytes, self.tail.take())?;
        self.bytes.extend_from_slice(bytes)?;
        Ok(())
    }

    /// A byte.
    pub fn u8(&mut self, number: u8) -> Result<(), NoMemory>
        ensures { OnOk result (self.new ≡ self.old ++ byte number) }
    {
        flatten(&mut self.bytes, self.tail.take())?;
        self.bytes.push(number)?;
        Ok(())
    }

    /// A number in two bytes.
    #[tactic(auto, unfolding(crate::specs::Spelling::number))]
    pub fn u16(&mut self, value: u16) -> Result<(), NoMemory>
        ensures { OnOk result (self.new ≡ self.old ++ number w16 value) }
    {
        self.all(&value.to_be_bytes())
    }

    /// A number in four bytes.
    #[tactic(auto, unfolding(crate::specs::Spelling::number))]
    pub fn u32(&mut self, value: u32) -> Result<(), NoMemory>
        ensures { OnOk result (self.new ≡ self.old ++ number w32 value) }
    {
        self.all(&value.to_be_bytes())
    }

    /// A number in eight bytes.
    #[tactic(auto, unfolding(crate::specs::Spelling::number))]
    pub fn u64(&mut self, value: u64) -> Result<(), NoMemory>
        ensures { OnOk result (self.new ≡ self.old ++ number w64 value) }
    {
        self.all(&value.to_be_bytes())
    }

    /// A range.
    #[tactic(auto, using(std::proofs::lemmas::List::append_assoc), unfolding(crate::specs::Spelling::range_bytes))]
    pub(crate) fn range(&mut self, range: Range) -> Result<(), NoMemory>
        ensures { OnOk result (self.new ≡ self.old ++ range_bytes range) }
    {
        self.u32(range.first())?;
        self.u8(range.count() as u8)
    }

    /// So many zeros.
    fn zeros(&mut self, count: usize) -> Result<(), NoMemory>
        ensures { OnOk result (self.new ≡ self.old ++ replicate count 0) }
    {
        flatten(&mut self.bytes, self.tail.take())?;
        let end = self.bytes.len().checked_add(count).ok_or(NoMemory)?;
        self.bytes.resize(end, 0)?;
        Ok(())
    }

    /// Sectors, one after the other.
    pub(crate) fn sectors(&mut self, sectors: &ThinSectors) -> Result<(), NoMemory>
        requires { length sectors.now ≤ 4096 }
        ensures { OnOk result (self.new ≡ self.old ++ sectors_in_row sectors.now) }
    {
        let (written, zeros) = sectors.parts();
        self.all(written.as_flattened())?;
        self.zeros(SECTOR_BYTES * zeros)
    }

    /// The sectors of a write, one after the other. They are shared.
    pub(crate) fn payload(&mut self, payload: &Payload) -> Result<(), NoMemory>
        ensures { OnOk result (self.new ≡ self.old ++ sectors_in_row payload.now) }
    {
        flatten(&mut self.bytes, self.tail.take())?;
        self.tail = Some(payload.try_clone()?);
        Ok(())
    }
}

/// Puts the sectors of a write, where there are some, behind the bytes.
fn flatten(bytes: &mut Vec<u8>, tail: Option<Payload>) -> Result<(), NoMemory>
    ensures { OnOk result (bytes.new.items ≡ bytes.old.items ++ tail_bytes tail) }
{
    let Some(payload) = tail else {
        return Ok(());
    };
    bytes.extend_from_slice(payload.as_slice().as_flattened())?;
    Ok(())
}
