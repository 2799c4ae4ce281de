//! What a phase of a ballot has done at each of its anchors.
ghost use Rattle.std.specs.Prelude.{◌≡◌, ◌<◌, ◌≤◌, ◌+◌, length, replicate};
ghost use Rattle.pf_paxos.specs.Parts.{fresh, part_at, with_part, phase_begun, no_part, renewed, part_takes, part_freed, part_written, part_advanced, parts_done, best_with_done, best_done};

use crate::Block;
use crate::proposer::better;
use pf_base::Value;
use std::marker::Model;

/// The most anchors.
const MOST: usize = 3;

/// What a mount does next at an anchor.
#[derive(Clone, Copy, Debug, PartialEq, Eq)]
pub enum AnchorNext {
    /// The own block is to be written there.
    Write(Block),
    /// Half 0 (blocks 0 to 7) or half 1 (blocks 8 to 15) is to be read there.
    Read(u8),
    /// Nothing for now.
    Idle,
}

/// The ask at an anchor that is not answered.
#[derive(Clone, Copy, Debug, PartialEq, Eq)]
pub enum AnchorAsk {
    /// None is.
    Nothing,
    /// The write of the own block, as it was then.
    OwnBlock,
    /// The read of this half.
    Half(u8),
}

/// What an anchor's part of a phase waits for.
#[derive(Clone, Copy, Debug, PartialEq, Eq)]
pub enum Stage {
    /// Its write.
    Writes,
    /// Its read of half 0.
    ReadsLow,
    /// Its read of half 1.
    ReadsHigh,
    /// Nothing: it is done.
    Done,
}

/// An anchor's part of the phase.
#[derive(Clone, Copy, Debug, PartialEq, Eq)]
pub struct Part {
    /// What it waits for.
    pub stage: Stage,
    /// The ask that is not answered.
    pub asked: AnchorAsk,
    /// Whether that ask is of an earlier phase.
    pub is_late: bool,
    /// The block with the greatest bal that this phase read here, the own one included.
    pub best: Block,
}

impl Part {
    /// The part at an anchor where nothing is asked.
    pub(crate) fn fresh(own: &Block) -> Part
        ensures { result ≡ fresh own.now }
    {
        Part {
            stage: Stage::Writes,
            asked: AnchorAsk::Nothing,
            is_late: true,
            best: *own,
        }
    }

    /// The part as a phase begins. What is asked still is late.
    fn begun(&self, own: &Block) -> Part
        ensures { result ≡ phase_begun own.now self.now }
    {
        Part {
            stage: Stage::Writes,
            asked: self.asked,
            is_late: true,
            best: *own,
        }
    }

    /// The part once this is asked.
    pub(crate) fn taken(&self, next: &AnchorNext) -> Part
        ensures { result ≡ part_takes self.now next.now }
    {
        let asked = match next {
            AnchorNext::Write(_) => AnchorAsk::OwnBlock,
            AnchorNext::Read(half) => AnchorAsk::Half(*half),
            AnchorNext::Idle => return *self,
        };
        Part {
            asked,
            is_late: false,
            ..*self
        }
    }

    /// The part, with nothing asked.
    pub(crate) fn freed(&self) -> Part
        ensures { result ≡ part_freed self.now }
    {
        Part {
            asked: AnchorAsk::Nothing,
            ..*self
        }
    }

    /// The part after its write was answered.
    pub(crate) fn written(&self) -> Part
        ensures { result ≡ part_written self.now }
    {
        let free = self.freed();
        if self.is_late {
            return free;
        }
        Part {
            stage: Stage::ReadsLow,
            ..free
        }
    }

    /// The part after its read was answered with these blocks.
    pub(crate) fn advanced(&self, blocks: &[Block]) -> Part
        ensures { result ≡ part_advanced self.now blocks.now }
    {
        let stage = match self.stage {
            Stage::ReadsLow => Stage::ReadsHigh,
            _ => Stage::Done,
        };
        Part {
            stage,
            asked: AnchorAsk::Nothing,
            is_late: self.is_late,
            best: better(self.best, blocks),
        }
    }
}

/// The parts of one to three anchors, kept in place with their count. No call takes memory.
#[derive(Clone, Copy, Debug, PartialEq, Eq)]
pub struct Parts {
    field: [Part; MOST],
    count: usize,
}

impl Model for Parts {
    ghost use Rattle.std.specs.Prelude.{◌≡◌, List, length, take};
    ghost use Rattle.pf_paxos.specs.declared.parts.Part.{Part};
    ghost use Rattle.pf_paxos.specs.Parts.{ArePadded, parts_padded};

    ghost Value = { List Part };

    ghost view = { λ p. take p.count p.field };

    // what lies past the parts is of no anchor, so that equal parts have equal fields
    ghost invariant = { λ p. ArePadded p.field p.count };

    ghost inverse = { λ parts. record { field = parts_padded parts; count = length parts } };

    ghost use Rattle.pf_paxos.specs.PartFields.{parts_given_back};

    ghost inverse_ok = { parts_given_back };
}

impl Parts {
    /// So many parts, each of them this one.
    pub fn new(count: u8, part: Part) -> Parts
        requires { count ≤ 3 }
        ensures { result ≡ replicate count part }
    {
        let count = count as usize;
        let mut field = [no_part(); MOST];
        fill(&mut field[..count], &part);
        Parts { field, count }
    }

    /// The part of an anchor.
    pub fn get(&self, anchor: u8) -> Part
        requires { anchor < length self.now }
        ensures { result ≡ part_at self.now anchor }
    {
        self.field[anchor as usize]
    }

    /// This is the part of the anchor from now on.
    pub fn put(&mut self, anchor: u8, part: Part)
        requires { anchor < length self.old }
        ensures { self.new ≡ with_part self.old anchor part }
    {
        self.field[anchor as usize] = part;
    }

    /// A phase begins at each anchor. What is asked still is late from then on.
    pub fn renew(&mut self, own: &Block)
        ensures { self.new ≡ renewed self.old own.now }
    {
        let count = self.count;
        renew(&mut self.field[..count], own);
    }

    /// How many anchors have done their part.
    pub fn done(&self) -> usize
        ensures { result ≡ parts_done self.now }
    {
        count_done(&self.field[..self.count])
    }

    /// The block with the greatest bal, of this one and those that the parts that are done read.
    pub fn best(&self, own: &Block) -> Block
        ensures { result ≡ best_done self.now own.now }
    {
        best_of_done(&self.field[..self.count], *own)
    }
}

/// The part where there is no anchor.
fn no_part() -> Part
    ensures { result ≡ no_part }
{
    let none = Block {
        mbal: 0,
        bal: 0,
        value: Value::empty(),
    };
    Part::fresh(&none)
}

/// Makes each of them this one.
fn fill(parts: &mut [Part], part: &Part)
    ensures { parts.new ≡ replicate (length parts.old) part.now }
{
    for at in 0..parts.len() {
        parts[at] = *part;
    }
}

/// A phase begins at each of them.
fn renew(parts: &mut [Part], own: &Block)
    ensures { parts.new ≡ renewed parts.old own.now }
{
    for at in 0..parts.len() {
        parts[at] = parts[at].begun(own);
    }
}

/// How many of them are done.
fn count_done(parts: &[Part]) -> usize
    ensures { result ≡ parts_done parts.now }
{
    let mut done = 0;
    for part in parts {
        if part.stage == Stage::Done {
            done += 1;
        }
    }
    done
}

/// The better of this block and what a part read, if the part is done.
fn best_with(best: Block, part: &Part) -> Block
    ensures { result ≡ best_with_done best part.now }
{
    if part.stage == Stage::Done && best.bal < part.best.bal {
        part.best
    } else {
        best
    }
}

/// The block with the greatest bal, of this one and those that the parts that are done read.
fn best_of_done(parts: &[Part], own: Block) -> Block
    ensures { result ≡ best_done parts.now own }
{
    let mut best = own;
    for part in parts {
        best = best_with(best, part);
    }
    best
}
