//! Copies the sectors of a chunk from one group to another.
ghost use Rattle.std.specs.Prelude.{◌≡◌, ◌+◌, ◌*◌, ◌/◌, ◌%◌, ◌<◌, ◌≤◌, IfOk, IsSome, None, OnErr};
ghost use Rattle.pf_move.specs.Movers.{AsksFor, ReplyFits, is_zero, is_zero_sector, new_mover, piece, reads_on, step, to_write};

use pf_base::{Data, NoMemory, Payload, Range, Reply, Sector};
use std::alloc::Global;
use std::marker::Model;

/// The ask whose reply the mover waits for.
#[derive(Clone, Copy, Debug, PartialEq, Eq)]
pub enum MoverAsk {
    /// To read a piece.
    Reading,
    /// To write the piece that was read.
    Writing,
}

/// What a mover wants done next.
#[derive(Drop)]
pub enum MoveNext {
    /// These eight sectors are to be read from the old group.
    Read(Range),
    /// These bytes, as the old group gave them, are to be written to the new one.
    Write(Range, Payload),
    /// The new group has every sector: it is to serve the chunk.
    Switch,
}

/// The copying of a chunk, in pieces of eight sectors: each one is read from the old group, and written to the new one unless it is all
/// zeros, as a sector that was never written reads as zeros. One ask at a time.
#[derive(Drop)]
pub struct Mover {
    chunk: u8,
    pieces: u32,
    /// So many pieces, the first ones, were read, and written unless they are all zeros.
    done: u32,
    asked: Option<MoverAsk>,
}

impl Model for Mover {
    ghost use Rattle.std.specs.Prelude.{◌≤◌};
    ghost use Rattle.pf_move.specs.Movers.{MoverIs};

    ghost Value = { MoverIs };

    ghost view = { λ m. record { chunk = m.chunk; pieces = m.pieces; done = m.done; asked = m.asked } };

    ghost invariant = { λ m. (m.done ≤ m.pieces) × (m.pieces ≤ 512) };
}

impl Mover {
    /// A mover of a chunk of so many sectors, 16 to 4,096 and a multiple of eight, that has asked nothing yet.
    pub fn new(chunk: u8, sectors: u32) -> Mover
        requires some { 16 ≤ sectors }
        requires few { sectors ≤ 4096 }
        requires pieces { sectors % 8 ≡ 0 }
        ensures new { result ≡ new_mover chunk (sectors / 8) }
        ensures all { 8 * result.pieces ≡ sectors }
    {
        Mover {
            chunk,
            pieces: sectors / 8,
            done: 0,
            asked: None,
        }
    }

    /// The chunk that is copied.
    pub fn chunk(&self) -> u8
        ensures { result ≡ self.now.chunk }
    {
        self.chunk
    }

    /// The ask whose reply the mover waits for.
    pub fn asked(&self) -> Option<MoverAsk>
        ensures { result ≡ self.now.asked }
    {
        self.asked
    }

    /// Takes out the reply to the last ask, if there was one, and says what is to be done next: reads the next piece, writes the one
    /// that was read, unless it is all zeros, or switches, exactly where every piece was read and each that is not all zeros was
    /// written and answered.
    ///
    /// `NoMemory` (1) leaves the mover and the reply as they were. It comes only where what was read is to be written.
    pub fn next(&mut self, alloc: Global, reply: &mut Option<Reply>) -> Result<MoveNext, NoMemory>
        requires going { self.old.done < self.old.pieces }
        requires reply { ReplyFits self.old.asked reply.old }
        ensures step { IfOk result (λ next. record { next = next; mover = self.new } ≡ step self.old reply.old) }
        ensures asks { IfOk result (λ next. AsksFor next self.new) }
        ensures taken { IfOk result (λ _. reply.new ≡ None) }
        ensures mover { OnErr result (self.new ≡ self.old) }
        ensures kept { OnErr result (reply.new ≡ reply.old) }
        ensures memory { OnErr result (IsSome (to_write reply.old)) }
    {
        let payload = payload_of(alloc, reply)?;
        let was_answered = reply.is_some();
        *reply = None;
        if let Some(payload) = payload {
            self.asked = Some(MoverAsk::Writing);
            return Ok(MoveNext::Write(piece(self.done), payload));
        }
        if was_answered {
            self.done += 1;
        }
        Ok(self.read_on())
    }

    /// Reads the next piece, or switches after the last.
    fn read_on(&mut self) -> MoveNext
        ensures step { record { next = result; mover = self.new } ≡ reads_on self.old }
        ensures asks { AsksFor result self.new }
    {
        if self.done == self.pieces {
            self.asked = None;
            return MoveNext::Switch;
        }
        self.asked = Some(MoverAsk::Reading);
        MoveNext::Read(piece(self.done))
    }
}

/// The sectors of a piece.
fn piece(index: u32) -> Range
    requires { index < 512 }
    ensures { result ≡ piece index }
{
    let Ok(range) = Range::new(8 * index, 8) else {
        unreachable!();
    };
    range
}

/// What is to be written after a reply: what was read, unless it is all zeros.
fn payload_of(alloc: Global, reply: &Option<Reply>) -> Result<Option<Payload>, NoMemory>
    ensures payload { IfOk result (λ payload. payload ≡ to_write reply.now) }
    ensures memory { OnErr result (IsSome (to_write reply.now)) }
{
    let Some(Reply::Bytes(data)) = reply else {
        return Ok(None);
    };
    if is_zero(data.as_slice()) {
        return Ok(None);
    }
    let _few = data.len();
    let data = Data::copied(alloc, data.as_slice())?;
    let payload = Payload::new(alloc, data)?;
    Ok(Some(payload))
}

/// Whether all bytes of these sectors are zeros.
fn is_zero(sectors: &[Sector]) -> bool
    ensures { result ≡ is_zero sectors.now }
{
    sectors.iter().all(|sector| is_zero_sector(sector))
}

/// Whether all bytes are zeros.
fn is_zero_sector(sector: &[u8]) -> bool
    ensures { result ≡ is_zero_sector sector.now }
{
    sector.iter().all(|byte| *byte == 0)
}
