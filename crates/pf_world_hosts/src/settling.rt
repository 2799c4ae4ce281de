//! Packets are delivered until none is left.
ghost use Rattle.std.specs.Prelude.{◌≡◌, ◌≤◌, ℕ, IfOk, List, MatchOption, OnErr, length};
ghost use Rattle.pf_mount_host.specs.pf_world_moments.specs.Steps.{AreReady};
ghost use Rattle.pf_world_hosts.specs.Nexts.{AllBegin, AllMoveUp, AreQuietBelow, IsNextChunk};
ghost use Rattle.pf_mount_host.specs.pf_chunk.specs.Views.{ChunkIs};
ghost use Rattle.pf_world_hosts.specs.Settled.{HasNotSettled, HasSettled};
ghost use Rattle.pf_world_hosts.specs.Steps.{FleetIs, IsFleetOf};
ghost use Rattle.pf_world_hosts.specs.Tries.{SettlingStands, TryEnds, deliveries};

use crate::Fleet;
use pf_base::NoMemory;
use pf_disk::Disk;
use pf_group_copy::{Gate, Workers};
use pf_mount_host::pf_chunk::{ChunkGroup, Try, TryEnd};
use std::thread::Threads;

/// What one try of a settling came to.
#[derive(Clone, Copy, Debug, PartialEq, Eq)]
pub enum Tried {
    /// None was made, for the settling has ended: `stopped` where a packet is left and all deliveries were made, else none is left but
    /// those that were passed over.
    Ended { stopped: bool },
    /// One was, and the settling goes on.
    Made(Try),
}

/// How many deliveries a try counts as.
fn deliveries(end: TryEnd) -> u32
    ensures { result ≡ deliveries end }
{
    match end {
        TryEnd::Passed => 0,
        TryEnd::Delivered { .. } => 1,
    }
}

/// A settling of each chunk begins: no packet was passed over yet.
fn begin_all<D: Disk + Drop>(chunks: &mut [ChunkGroup<D>])
    requires { AreReady chunks.old }
    ensures { AllBegin chunks.old chunks.new }
{
    for chunk in chunks {
        chunk.begin_settling();
    }
}

/// The least chunk with a packet that is left and was not passed over.
fn next_chunk<D: Disk + Drop>(chunks: &mut [ChunkGroup<D>]) -> Option<usize>
    ensures moved { AllMoveUp chunks.old chunks.new }
    ensures next { MatchOption result (AreQuietBelow (length chunks.new) chunks.new) (λ place. IsNextChunk place chunks.new) }
{
    for place in 0..chunks.len() {
        if chunks[place].next_left().is_some() {
            return Some(place);
        }
    }
    None
}

impl Fleet {
    /// A settling begins, of any count of deliveries: no packet was passed over yet.
    pub fn begin_settling<D: Disk + Drop>(&self, chunks: &mut [ChunkGroup<D>])
        requires ready { AreReady chunks.old }
        requires fleet { IsFleetOf chunks.old self.now }
        ensures { (limit : ℕ) (out : List ℕ) → SettlingStands limit chunks.old self.now out limit out chunks.new self.now }
    {
        begin_all(chunks);
    }

    /// Makes one try of a settling with `left` deliveries left: the delivery of the least packet that is left in the least chunk that has
    /// one and was not passed over. Where it is refused for want of room in a log or among the packets it is passed over, and counts as no
    /// delivery. After it, also where it was refused, each host takes its step, and the mover. Lines are put at the end of `out`.
    ///
    /// After `NoMemory` (1) the groups stand at a beginning of the try; the hosts are not for use then.
    pub fn try_settling<D: Disk + Drop, R: Threads + Sync, G: Gate + Sync>(
        &mut self,
        workers: &Workers<'_, R, G>,
        chunks: &mut [ChunkGroup<D>],
        left: u32,
        out: &mut Vec<u8>,
    ) -> Result<Tried, NoMemory>
        requires ready { AreReady chunks.old }
        requires fleet { IsFleetOf chunks.old self.old }
        ensures tried { IfOk result (λ tried. (limit : ℕ) (first : List ChunkIs) (fleet : FleetIs) (before : List ℕ)
            → (s : SettlingStands limit first fleet before left out.old.items chunks.old self.old)
            → TryEnds tried limit first fleet before left s.passed out.old.items chunks.old self.old out.new.items chunks.new self.new) }
        ensures err { OnErr result ((limit : ℕ) (first : List ChunkIs) (fleet : FleetIs) (before : List ℕ)
            → SettlingStands limit first fleet before left out.old.items chunks.old self.old → HasNotSettled limit first fleet chunks.new) }
    {
        let Some(place) = next_chunk(chunks) else {
            return Ok(Tried::Ended { stopped: false });
        };
        if left == 0 {
            return Ok(Tried::Ended { stopped: true });
        }
        let tried = chunks[place].settle_one(workers, out)?;
        self.step(workers, chunks, out)?;
        Ok(Tried::Made(tried))
    }

    /// Makes up to `limit` deliveries, at most 1,000,000, each by a try, and answers whether it was the limit that ended it. Lines are put
    /// at the end of `out`.
    ///
    /// After `NoMemory` (1) the groups stand after some whole tries and a beginning of one more; the hosts are not for use then.
    pub fn settle<D: Disk + Drop, R: Threads + Sync, G: Gate + Sync>(
        &mut self,
        workers: &Workers<'_, R, G>,
        chunks: &mut [ChunkGroup<D>],
        limit: u32,
        out: &mut Vec<u8>,
    ) -> Result<bool, NoMemory>
        requires ready { AreReady chunks.old }
        requires fleet { IsFleetOf chunks.old self.old }
        requires limit { limit ≤ 1000000 }
        ensures settled { IfOk result (λ stopped. HasSettled limit chunks.old self.old out.old.items stopped chunks.new self.new out.new.items) }
        ensures err { OnErr result (HasNotSettled limit chunks.old self.old chunks.new) }
    {
        self.begin_settling(chunks);
        let mut left = limit;
        loop {
            let tried = self.try_settling(workers, chunks, left, out)?;
            match tried {
                Tried::Ended { stopped } => return Ok(stopped),
                Tried::Made(made) => left -= deliveries(made.end),
            }
        }
    }
}
