//! What is pending at the anchors beside the asks of the position's ballots.
ghost use Rattle.std.specs.Prelude.{◌≡◌, ◌<◌};
ghost use Rattle.pf_mount_errands.specs.Errands.{all_late, all_left, errand_at, is_anchor_free, is_of_pause, is_pausing, late, least_free_anchor, left_behind, no_errands, with_errand};

use crate::position::Position;
use pf_paxos::AnchorAsk;

/// What is pending at an anchor beside the asks of the position's ballots.
#[derive(Clone, Copy, Debug, PartialEq, Eq)]
pub enum Errand {
    /// Nothing.
    Free,
    /// A sync's read of a half.
    OfSync,
    /// A pause's read of one sector.
    OfPause,
    /// A read of the superblock.
    OfSuper,
    /// A write of the superblock.
    FillsSuper,
    /// A write of earlier work. Nobody looks at its answer.
    LateWrite,
    /// A read of so many sectors of earlier work. Nobody looks at its answer.
    LateRead(u8),
}

/// What is pending at the anchors, of which there are at most three, beside the asks of the position's ballots.
#[derive(Clone, Copy, Debug, PartialEq, Eq)]
pub struct Errands {
    /// At anchor 0.
    pub errand_0: Errand,
    /// At anchor 1.
    pub errand_1: Errand,
    /// At anchor 2.
    pub errand_2: Errand,
}

impl Errands {
    /// Nothing is pending.
    pub fn new() -> Errands
        ensures { result ≡ no_errands }
    {
        Errands {
            errand_0: Errand::Free,
            errand_1: Errand::Free,
            errand_2: Errand::Free,
        }
    }

    /// At this anchor.
    pub fn at(&self, anchor: u8) -> Errand
        ensures { result ≡ errand_at self.now anchor }
    {
        if anchor == 0 {
            self.errand_0
        } else if anchor == 1 {
            self.errand_1
        } else {
            self.errand_2
        }
    }

    /// With another errand at this anchor.
    pub fn with(&self, anchor: u8, errand: Errand) -> Errands
        ensures { result ≡ with_errand self.now anchor errand }
    {
        if anchor == 0 {
            Errands {
                errand_0: errand,
                ..*self
            }
        } else if anchor == 1 {
            Errands {
                errand_1: errand,
                ..*self
            }
        } else {
            Errands {
                errand_2: errand,
                ..*self
            }
        }
    }

    /// As a sync begins: what is pending is of earlier work from then on.
    pub fn late(&self) -> Errands
        ensures { result ≡ all_late self.now }
    {
        Errands {
            errand_0: late(self.errand_0),
            errand_1: late(self.errand_1),
            errand_2: late(self.errand_2),
        }
    }

    /// As this position is left: what its ballots asked is of earlier work from then on.
    pub fn left(&self, position: &Position) -> Errands
        ensures { result ≡ all_left self.now position.now.ballot.parts }
    {
        Errands {
            errand_0: left_behind(self.errand_0, position.asked(0)),
            errand_1: left_behind(self.errand_1, position.asked(1)),
            errand_2: left_behind(self.errand_2, position.asked(2)),
        }
    }

    /// Whether nothing is pending at an anchor, where the ballots of the position stand so.
    pub fn is_free(&self, position: &Position, anchor: u8) -> bool
        ensures { result ≡ is_anchor_free self.now position.now.ballot.parts anchor }
    {
        let errand = self.at(anchor);
        let asked = position.asked(anchor);
        matches!((errand, asked), (Errand::Free, AnchorAsk::Nothing))
    }

    /// The least anchor at which nothing is pending; 2 where there is none.
    pub fn least_free(&self, position: &Position) -> u8
        ensures value { result ≡ least_free_anchor self.now position.now.ballot.parts }
        ensures low { result < 3 }
    {
        if self.is_free(position, 0) {
            0
        } else if self.is_free(position, 1) {
            1
        } else {
            2
        }
    }

    /// Whether a pause's read is pending.
    pub fn is_waiting(&self) -> bool
        ensures { result ≡ is_pausing self.now }
    {
        is_of_pause(self.errand_0) || is_of_pause(self.errand_1) || is_of_pause(self.errand_2)
    }
}

/// An errand as a sync begins.
fn late(errand: Errand) -> Errand
    ensures { result ≡ late errand }
{
    match errand {
        Errand::OfSync => Errand::LateRead(8),
        Errand::OfPause | Errand::OfSuper => Errand::LateRead(1),
        Errand::FillsSuper => Errand::LateWrite,
        _ => errand,
    }
}

/// An errand, or an ask of the position's ballots, as the position is left.
fn left_behind(errand: Errand, asked: AnchorAsk) -> Errand
    ensures { result ≡ left_behind errand asked }
{
    match (errand, asked) {
        (Errand::Free, AnchorAsk::OwnBlock) => Errand::LateWrite,
        (Errand::Free, AnchorAsk::Half(_)) => Errand::LateRead(8),
        _ => late(errand),
    }
}

/// Whether it is a pause's read.
fn is_of_pause(errand: Errand) -> bool
    ensures { result ≡ is_of_pause errand }
{
    errand == Errand::OfPause
}
