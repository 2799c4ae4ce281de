//! One mount's ballots in one position, over one to three anchors.
ghost use Rattle.std.specs.Prelude.{◌≡◌, ◌↔◌, ℕ, ◌<◌, ◌≤◌, ◌^◌, nat_lt, nat_le, max, length, IsTrue};
ghost use Rattle.pf_paxos.specs.Blocks.{IsBlock, ballot_after};
ghost use Rattle.pf_paxos.specs.Standing.{IsInput, AreBlocks};
ghost use Rattle.pf_paxos.specs.declared.parts.AnchorNext.TheVariants.{Idle};
ghost use Rattle.pf_paxos.specs.Parts.{part_at, best_done, AsksBlockWrite, AsksHalf};
ghost use Rattle.pf_paxos.specs.Ballots.{next_in_phase, next_at_anchor, is_phase_over, new_ballot, started, asked_next, written_at, chosen, passed, read_at, AnchorIsIdle};
ghost use Rattle.pf_paxos.specs.BallotStanding.{IsAsk, AbortsByBlock, IsNoAbort, IsQuorum};

use crate::block::BALLOT_LIMIT;
use crate::parts::Parts;
use crate::proposer::{ballot_above, greatest_of, proposal};
use crate::{AnchorAsk, AnchorNext, Block, Part, Stage};
use pf_base::Value;
use std::marker::Model;

/// What an answered read does to the ballot.
#[derive(Clone, Copy, Debug, PartialEq, Eq)]
pub enum BallotStep {
    /// It goes on, or there is none.
    Go,
    /// It ended: a block just read has this greater mbal.
    Abort(u64),
    /// It ended: phase 1 has neither an own input nor a nonzero bal.
    NoValue,
    /// It ended: the position is decided with this value.
    Decided(Value),
}

/// Where a ballot is.
#[derive(Clone, Copy, Debug, PartialEq, Eq)]
pub enum Phase {
    /// None runs.
    Resting,
    /// Phase 1 runs.
    Claiming,
    /// Phase 2 runs.
    Proposing,
}

/// A mount's part in one position over one to three anchors, of which a ballot needs a quorum: at most one ballot at a time, and at each
/// anchor one ask. No call takes memory.
#[derive(Clone, Copy, Debug, PartialEq, Eq)]
pub struct Ballot {
    mount: u8,
    own: Block,
    input: Option<Value>,
    quorum: u8,
    phase: Phase,
    parts: Parts,
}

impl Model for Ballot {
    ghost use Rattle.pf_paxos.specs.Ballots.{BallotIs};
    ghost use Rattle.pf_paxos.specs.BallotStanding.{IsStanding};

    ghost Value = { BallotIs };

    ghost view = { λ p. record { mount = p.mount; own = p.own; input = p.input; quorum = p.quorum; phase = p.phase; parts = p.parts } };

    ghost invariant = { λ p. IsStanding (record { mount = p.mount; own = p.own; input = p.input; quorum = p.quorum; phase = p.phase; parts = p.parts }) };

    ghost inverse = { λ p. record { mount = p.mount; own = p.own; input = p.input; quorum = p.quorum; phase = p.phase; parts = p.parts } };
}

impl Ballot {
    /// The ballots of a mount whose block this is, over so many anchors, of which it needs so many. No ballot runs.
    pub fn new(anchors: u8, quorum: u8, mount: u8, own: Block) -> Ballot
        requires few { anchors ≤ 3 }
        requires quorum { IsQuorum anchors quorum }
        requires mount { mount < 16 }
        requires form { IsBlock own }
        ensures { result ≡ new_ballot anchors quorum mount own }
    {
        let parts = Parts::new(anchors, Part::fresh(&own));
        Ballot {
            mount,
            own,
            input: None,
            quorum,
            phase: Phase::Resting,
            parts,
        }
    }

    /// What the part of this anchor waits for and has read.
    pub fn part(&self, anchor: u8) -> Part
        requires { anchor < length self.now.parts }
        ensures { result ≡ part_at self.now.parts anchor }
    {
        self.parts.get(anchor)
    }

    /// Whether a ballot is left above this number and above the own block's mbal: then, and only then, `start` may be called with it.
    pub fn can_start(&self, above: u64) -> bool
        requires { above < 2 ^ 62 }
        ensures { result ≡ nat_lt (ballot_after self.now.mount (max above self.now.own.mbal)) (2 ^ 62) }
    {
        ballot_above(self.mount, above.max(self.own.mbal)) < BALLOT_LIMIT
    }

    /// Begins the least ballot of the mount above this number and above the own block's mbal. A ballot that runs ends.
    pub fn start(&mut self, above: u64, input: Option<Value>)
        requires room { ballot_after self.old.mount (max above self.old.own.mbal) < 2 ^ 62 }
        requires input { IsInput input }
        ensures { self.new ≡ started self.old above input }
    {
        let above = above.max(self.own.mbal);
        self.own.mbal = ballot_above(self.mount, above);
        self.input = input;
        self.phase = Phase::Claiming;
        self.parts.renew(&self.own);
    }

    /// What is to be asked at this anchor now, which then counts as asked. `Idle` comes exactly where no ballot runs, or this anchor has
    /// done its part of the phase or has an ask that is not answered.
    pub fn next(&mut self, anchor: u8) -> AnchorNext
        requires { anchor < length self.old.parts }
        ensures ballot { self.new ≡ asked_next self.old anchor }
        ensures next { result ≡ next_at_anchor self.old anchor }
        ensures idle { result ≡ Idle ↔ AnchorIsIdle self.old anchor }
        ensures form { IsAsk result }
    {
        let part = self.parts.get(anchor);
        let next = part_next(self.phase, &part, self.own);
        self.parts.put(anchor, part.taken(&next));
        next
    }

    /// The write that was asked at this anchor was answered. One of an earlier phase or ballot frees the anchor alone.
    pub fn on_written(&mut self, anchor: u8)
        requires anchor { anchor < length self.old.parts }
        requires asked { AsksBlockWrite (part_at self.old.parts anchor).asked }
        ensures { self.new ≡ written_at self.old anchor }
    {
        let part = self.parts.get(anchor).written();
        self.parts.put(anchor, part);
    }

    /// The read of this half that was asked at this anchor was answered with these eight blocks. One of an earlier phase or ballot frees
    /// the anchor alone.
    pub fn on_read(&mut self, anchor: u8, half: u8, blocks: &[Block]) -> BallotStep
        requires anchor { anchor < length self.old.parts }
        requires asked { AsksHalf half (part_at self.old.parts anchor).asked }
        requires eight { length blocks.now ≡ 8 }
        requires forms { AreBlocks blocks.now }
        ensures ballot { self.new ≡ (read_at self.old anchor blocks.now).ballot }
        ensures step { result ≡ (read_at self.old anchor blocks.now).step }
        ensures abort { AbortsByBlock self.old.own.mbal blocks.now result }
    {
        let part = self.parts.get(anchor);
        let free = part.freed();
        if part.is_late {
            self.parts.put(anchor, free);
            return BallotStep::Go;
        }
        let greatest = greatest_of(blocks);
        if self.own.mbal < greatest {
            self.parts.put(anchor, free);
            self.phase = Phase::Resting;
            self.parts.renew(&self.own);
            return BallotStep::Abort(greatest);
        }
        let part = part.advanced(blocks);
        self.parts.put(anchor, part);
        self.pass()
    }

    /// Ends the phase where a quorum of the anchors have done their part.
    fn pass(&mut self) -> BallotStep
        ensures ballot { self.new ≡ (passed self.old).ballot }
        ensures step { result ≡ (passed self.old).step }
        ensures open { IsNoAbort result }
    {
        if self.parts.done() < self.quorum as usize {
            return BallotStep::Go;
        }
        match self.phase {
            Phase::Resting => BallotStep::Go,
            Phase::Claiming => self.choose(),
            Phase::Proposing => {
                self.phase = Phase::Resting;
                self.parts.renew(&self.own);
                BallotStep::Decided(self.own.value)
            }
        }
    }

    /// Ends phase 1.
    fn choose(&mut self) -> BallotStep
        requires { 0 < self.old.own.mbal }
        ensures ballot { self.new ≡ (chosen self.old.input self.old (best_done self.old.parts self.old.own)).ballot }
        ensures step { result ≡ (chosen self.old.input self.old (best_done self.old.parts self.old.own)).step }
        ensures open { IsNoAbort result }
    {
        let best = self.parts.best(&self.own);
        if best.bal == 0 && self.input.is_none() {
            self.phase = Phase::Resting;
            self.parts.renew(&self.own);
            return BallotStep::NoValue;
        }
        self.own = proposal(self.own.mbal, &best, self.input);
        self.phase = Phase::Proposing;
        self.parts.renew(&self.own);
        BallotStep::Go
    }
}

/// What is to be asked for a part.
fn part_next(phase: Phase, part: &Part, own: Block) -> AnchorNext
    ensures { result ≡ next_in_phase phase part.now own }
{
    if phase == Phase::Resting || part.asked != AnchorAsk::Nothing {
        return AnchorNext::Idle;
    }
    match part.stage {
        Stage::Writes => AnchorNext::Write(own),
        Stage::ReadsLow => AnchorNext::Read(0),
        Stage::ReadsHigh => AnchorNext::Read(1),
        Stage::Done => AnchorNext::Idle,
    }
}
