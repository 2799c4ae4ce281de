//! A mount at a position of the journal: its ballots over the anchors there, and what it has met of the other mounts.
ghost use Rattle.std.specs.Prelude.{◌≡◌, ◌<◌, IsTrue, length};
ghost use Rattle.pf_paxos.specs.Standing.{AreBlocks, IsInput};
ghost use Rattle.pf_paxos.specs.Parts.{AsksHalf, AsksBlockWrite, part_at};
ghost use Rattle.pf_paxos.specs.Ballots.{next_at_anchor, read_at};
ghost use Rattle.pf_paxos.specs.BallotStanding.{IsAsk};
ghost use Rattle.pf_mount_errands.specs.Positions.{IsOverAnchors, anchors_of, can_start, having_aborted, having_asked, having_read, having_seen, having_written, new_position, rest_of_pause, starting_ballot};

use pf_base::Value;
use pf_journal::Layout;
use pf_paxos::{AnchorAsk, AnchorNext, Ballot, BallotStep, Block, Rivals};
use std::marker::Model;

/// A mount at a position of a journal of this layout. No call takes memory.
#[derive(Clone, Copy)]
pub struct Position {
    layout: Layout,
    ballot: Ballot,
    rivals: Rivals,
}

impl Model for Position {
    ghost use Rattle.pf_mount_errands.specs.Positions.{IsOverAnchors, PositionIs};

    ghost Value = { PositionIs };

    ghost view = { λ p. record { layout = p.layout; ballot = p.ballot; rivals = p.rivals } };

    ghost invariant = { λ p. IsOverAnchors (record { layout = p.layout; ballot = p.ballot; rivals = p.rivals }) };

    ghost inverse = { λ p. record { layout = p.layout; ballot = p.ballot; rivals = p.rivals } };
}

impl Position {
    /// Nothing was read here yet.
    pub fn new(layout: Layout, mount: u8) -> Position
        requires { mount < 16 }
        ensures { result ≡ new_position layout mount }
    {
        let own = Block {
            mbal: 0,
            bal: 0,
            value: Value::empty(),
        };
        Position {
            layout,
            ballot: Ballot::new(layout.anchors(), layout.quorum(), mount, own),
            rivals: Rivals::new(),
        }
    }

    /// The layout of its journal, over whose anchors its ballots are.
    pub fn layout(&self) -> Layout
        ensures layout { result ≡ self.now.layout }
        ensures over { IsOverAnchors self.now }
    {
        self.layout
    }

    /// These blocks were read.
    pub fn see(&mut self, blocks: &[Block])
        requires { AreBlocks blocks.now }
        ensures { self.new ≡ having_seen self.old blocks.now }
    {
        self.rivals.see(blocks);
    }

    /// A ballot was aborted.
    pub fn abort(&mut self)
        ensures { self.new ≡ having_aborted self.old }
    {
        self.rivals.abort();
    }

    /// The reads of a pause after an aborted ballot of a mount, but for the first.
    pub fn rest(&self, mount: u8) -> u32
        requires { mount < 16 }
        ensures { result ≡ rest_of_pause mount self.now }
    {
        self.rivals.rest(mount)
    }

    /// Whether a ballot is left above all that was seen.
    pub fn can_start(&self) -> bool
        ensures { result ≡ can_start self.now }
    {
        self.ballot.can_start(self.rivals.seen())
    }

    /// Begins the least ballot above all that was seen.
    pub fn start(&mut self, input: Option<Value>)
        requires left { IsTrue (can_start self.old) }
        requires input { IsInput input }
        ensures { self.new ≡ starting_ballot self.old input }
    {
        self.ballot.start(self.rivals.seen(), input);
    }

    /// The ask of a ballot that is not answered at this anchor; nothing where there is no such anchor.
    pub fn asked(&self, anchor: u8) -> AnchorAsk
        ensures { result ≡ (part_at self.now.ballot.parts anchor).asked }
    {
        if anchor < self.layout.anchors() {
            self.ballot.part(anchor).asked
        } else {
            AnchorAsk::Nothing
        }
    }

    /// What the ballot asks at this anchor now, which then counts as asked.
    pub fn next(&mut self, anchor: u8) -> AnchorNext
        requires { anchor < anchors_of self.old }
        ensures position { self.new ≡ having_asked self.old anchor }
        ensures next { result ≡ next_at_anchor self.old.ballot anchor }
        ensures form { IsAsk result }
    {
        self.ballot.next(anchor)
    }

    /// The write that a ballot asked at this anchor was answered.
    pub fn on_written(&mut self, anchor: u8)
        requires anchor { anchor < anchors_of self.old }
        requires asked { AsksBlockWrite (part_at self.old.ballot.parts anchor).asked }
        ensures { self.new ≡ having_written self.old anchor }
    {
        self.ballot.on_written(anchor);
    }

    /// The read that a ballot asked at this anchor was answered with these eight blocks. Those of an earlier phase are not seen.
    pub fn on_read(&mut self, anchor: u8, half: u8, blocks: &[Block]) -> BallotStep
        requires anchor { anchor < anchors_of self.old }
        requires asked { AsksHalf half (part_at self.old.ballot.parts anchor).asked }
        requires eight { length blocks.now ≡ 8 }
        requires forms { AreBlocks blocks.now }
        ensures position { self.new ≡ having_read self.old anchor blocks.now }
        ensures step { result ≡ (read_at self.old.ballot anchor blocks.now).step }
    {
        let is_late = self.ballot.part(anchor).is_late;
        let step = self.ballot.on_read(anchor, half, blocks);
        if is_late {
            return step;
        }
        self.rivals.see(blocks);
        step
    }
}
