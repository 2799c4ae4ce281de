//! What a proposer has met of the others at its position.
ghost use Rattle.std.specs.Prelude.{◌≡◌, ◌+◌, ◌*◌, ◌<◌, ◌^◌, max, min, pred};
ghost use Rattle.pf_paxos.specs.Blocks.{greatest_mbal};
ghost use Rattle.pf_paxos.specs.Standing.{AreBlocks};

use crate::Block;
use crate::proposer::greatest_of;
use std::marker::Model;

/// The most ballots that are counted as aborted.
const MOST_ABORTS: u32 = 16;

/// What a mount has met of the other mounts at a position: the greatest mbal that it has read there, and how many of its ballots were
/// aborted, counted up to 16. No call takes memory.
#[derive(Clone, Copy)]
pub struct Rivals {
    seen: u64,
    aborts: u32,
}

impl Model for Rivals {
    ghost use Rattle.std.specs.Prelude.{◌<◌, ◌≤◌, ◌^◌};
    ghost use Rattle.pf_paxos.specs.Rivals.{RivalsAre};

    ghost Value = { RivalsAre };

    ghost view = { λ r. record { seen = r.seen; aborts = r.aborts } };

    ghost invariant = { λ r. (r.seen < 2 ^ 62) × (r.aborts ≤ 16) };

    ghost inverse = { λ r. record { seen = r.seen; aborts = r.aborts } };
}

impl Rivals {
    /// None was met yet.
    pub fn new() -> Rivals
        ensures { result ≡ record { seen = 0; aborts = 0 } }
    {
        Rivals { seen: 0, aborts: 0 }
    }

    /// The greatest mbal that was read; 0 where none was.
    pub fn seen(&self) -> u64
        ensures value { result ≡ self.now.seen }
        ensures low { result < 2 ^ 62 }
    {
        self.seen
    }

    /// These blocks were read.
    pub fn see(&mut self, blocks: &[Block])
        requires { AreBlocks blocks.now }
        ensures { self.new ≡ record self.old { seen = max self.old.seen (greatest_mbal blocks.now) } }
    {
        self.seen = self.seen.max(greatest_of(blocks));
    }

    /// A ballot was aborted.
    pub fn abort(&mut self)
        ensures { self.new ≡ record self.old { aborts = min 16 (self.old.aborts + 1) } }
    {
        self.aborts = MOST_ABORTS.min(self.aborts + 1);
    }

    /// The reads of a pause after an aborted ballot of a mount.
    fn pause(&self, mount: u8) -> u32
        requires { mount < 16 }
        ensures { result ≡ 8 * self.now.aborts * (mount + 1) }
    {
        8 * self.aborts * (u32::from(mount) + 1)
    }

    /// The reads of that pause but for the first.
    pub fn rest(&self, mount: u8) -> u32
        requires { mount < 16 }
        ensures { result ≡ pred (8 * self.now.aborts * (mount + 1)) }
    {
        self.pause(mount).saturating_sub(1)
    }
}
