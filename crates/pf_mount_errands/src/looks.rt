//! What a sync has read on the anchors.
ghost use Rattle.std.specs.Prelude.{◌≡◌, ◌≤◌, ◌<◌, ◌+◌};
ghost use Rattle.pf_paxos.specs.Parts.{is_done};
ghost use Rattle.pf_mount_errands.specs.Looks.{are_looked, finds, have_found, having_looked, look_at, looked, looked_on, new_looks, count_with_done, with_look};

use crate::has_bal;
use pf_paxos::{Block, Stage};

/// What a sync has read on an anchor.
#[derive(Clone, Copy, Debug, PartialEq, Eq)]
pub struct AnchorLook {
    /// The half that it reads next, or that both are read.
    pub stage: Stage,
    /// Some block that was read has a nonzero bal.
    pub found: bool,
}

/// What a sync has read on the anchors, of which there are at most three.
#[derive(Clone, Copy, Debug, PartialEq, Eq)]
pub struct Looks {
    /// On anchor 0.
    pub look_0: AnchorLook,
    /// On anchor 1.
    pub look_1: AnchorLook,
    /// On anchor 2.
    pub look_2: AnchorLook,
}

impl Looks {
    /// Nothing is read.
    pub fn new() -> Looks
        ensures { result ≡ new_looks }
    {
        let look = AnchorLook {
            stage: Stage::ReadsLow,
            found: false,
        };
        Looks {
            look_0: look,
            look_1: look,
            look_2: look,
        }
    }

    /// On this anchor.
    pub fn at(&self, anchor: u8) -> AnchorLook
        ensures { result ≡ look_at self.now anchor }
    {
        if anchor == 0 {
            self.look_0
        } else if anchor == 1 {
            self.look_1
        } else {
            self.look_2
        }
    }

    /// A half was read on this anchor, with these blocks.
    pub fn read(&self, anchor: u8, blocks: &[Block]) -> Looks
        ensures { result ≡ having_looked self.now anchor blocks.now }
    {
        let look = looked(&self.at(anchor), blocks);
        self.with(anchor, look)
    }

    /// With another look for this anchor.
    fn with(&self, anchor: u8, look: AnchorLook) -> Looks
        ensures { result ≡ with_look self.now anchor look }
    {
        if anchor == 0 {
            Looks {
                look_0: look,
                ..*self
            }
        } else if anchor == 1 {
            Looks {
                look_1: look,
                ..*self
            }
        } else {
            Looks {
                look_2: look,
                ..*self
            }
        }
    }

    /// Whether both halves are read on as many of the anchors as a sync needs.
    pub fn are_over(&self, quorum: u8) -> bool
        ensures { result ≡ are_looked quorum self.now }
    {
        let count = with_done(&self.look_2, 0);
        let count = with_done(&self.look_0, with_done(&self.look_1, count));
        quorum <= count
    }

    /// Whether some block has a nonzero bal on an anchor of which both halves are read.
    pub fn have_found(&self) -> bool
        ensures { result ≡ have_found self.now }
    {
        finds(&self.look_0) || finds(&self.look_1) || finds(&self.look_2)
    }
}

/// The look after one more half.
fn looked(look: &AnchorLook, blocks: &[Block]) -> AnchorLook
    ensures { result ≡ looked look.now blocks.now }
{
    let stage = match look.stage {
        Stage::ReadsLow => Stage::ReadsHigh,
        _ => Stage::Done,
    };
    let found = look.found || has_bal(blocks);
    AnchorLook { stage, found }
}

/// One more, where both halves are read.
fn with_done(look: &AnchorLook, count: u8) -> u8
    requires { count < 3 }
    ensures value { result ≡ count_with_done look.now count }
    ensures most { result ≤ count + 1 }
{
    if is_done(look) { count + 1 } else { count }
}

/// Whether both halves are read.
fn is_done(look: &AnchorLook) -> bool
    ensures { result ≡ is_done look.now.stage }
{
    look.stage == Stage::Done
}

/// Whether both halves are read, and some block there has a nonzero bal.
fn finds(look: &AnchorLook) -> bool
    ensures { result ≡ finds look.now }
{
    is_done(look) && look.found
}
