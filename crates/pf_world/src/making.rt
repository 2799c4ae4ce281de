//! How a world is made, and ends.
ghost use Rattle.std.specs.Prelude.{◌≡◌, ◌≤◌, ◌*◌, List, [], true, IfErr, IfOk, OnErr, drop, length, reverse, vec_capacity, vec_len};
ghost use Rattle.pf_script.specs.Lines.{is_volume};
ghost use Rattle.pf_protocol.specs.Answers.{IsSetup};
ghost use Rattle.pf_live_session.specs.pf_group.specs.Making.{setup_with};
ghost use Rattle.pf_live_session.specs.pf_chunk.specs.Views.{ChunkIs};
ghost use Rattle.pf_world.specs.Disks.{AreLeft};
ghost use Rattle.pf_world.specs.Making.{AreBegun, AreNew, HasAdded, HasMade, unless_done};
ghost use Rattle.pf_world.specs.Headline.{IsSoundWorld};
ghost use Rattle.pf_world.specs.Steps.{VolumeIsMade};

use crate::World;
use crate::disks::{put_six, take_six};
use pf_base::NoMemory;
use pf_disk::Disk;
use pf_live_session::pf_chunk::ChunkGroup;
use pf_protocol::Answer;
use pf_volume::Volume;
use pf_world_hosts::Fleet;
use std::alloc::Global;

/// The second answer, unless it tells no more than that all was done.
fn unless_done(first: Answer, second: Answer) -> Answer
    ensures { result ≡ unless_done first second }
{
    match second {
        Answer::Done => first,
        other => other,
    }
}

/// Makes a group on the last six of these disks, the first of them last. `NoMemory` (1) leaves them as they were.
pub(crate) fn make<D: Disk + Drop>(
    alloc: Global,
    number: u8,
    sectors: u32,
    names: u8,
    format: u8,
    spare: &mut Vec<D>,
) -> Result<(ChunkGroup<D>, Answer), NoMemory>
    requires setup { IsSetup (setup_with sectors names format []) }
    requires disks { 6 ≤ vec_len spare.old }
    ensures made { IfOk result (λ made. HasMade D.faults D.tells number sectors names format (reverse spare.old.items) made.0 made.1
        (reverse spare.new.items)) }
    ensures err { OnErr result (spare.new.items ≡ spare.old.items) }
    ensures room { vec_capacity spare.old ≤ vec_capacity spare.new }
{
    let Some(six) = take_six(spare) else {
        unreachable!()
    };
    match ChunkGroup::new(alloc, number, sectors, names, format, six) {
        Ok(made) => Ok(made),
        Err((six, error)) => {
            put_six(spare, six);
            Err(error)
        }
    }
}

impl<D: Disk + Drop> World<D> {
    /// Makes a volume of 1 to 8 chunks, each of 16 to 4,096 sectors, a multiple of 8, with look-behind lists of up to `names` names and
    /// disks of the given format. Disk 6g + 2i + h is half h of server i of chunk g; there are enough, whatever they held and whatever they
    /// tell. `Done`, or `Halted` (52) where a disk failed while it was formatted.
    ///
    /// `NoMemory` (1) gives the disks back in their order, those of the first chunks, which were made, with what these left on them, and the
    /// others as they were.
    pub fn new(
        alloc: Global,
        chunks: u32,
        sectors: u32,
        names: u8,
        format: u8,
        disks: Vec<D>,
    ) -> Result<(World<D>, Answer), (Vec<D>, NoMemory)>
        requires volume { is_volume chunks sectors names format ≡ true }
        requires disks { 6 * chunks ≤ length disks.items }
        ensures made { IfOk result (λ made. VolumeIsMade chunks sectors names format made.0.world made.1) }
        ensures sound { IfOk result (λ made. IsSoundWorld made.0.world) }
        ensures fresh { IfOk result (λ made. AreNew D.faults disks.items made.0.world) }
        ensures spare { IfOk result (λ made. made.0.spare ≡ drop (6 * chunks) disks.items) }
        ensures back { IfErr result (λ back. (made : List ChunkIs) × AreBegun D.faults chunks sectors names format disks.items made
            × AreLeft D.seen D.may_leave D.faults D.moment D.left_since D.tells D.tells_moments made disks.items back.0.items) }
    {
        let mut spare = disks;
        spare.reverse();
        let mut world = World {
            sectors,
            names,
            format,
            chunks: Vec::new(alloc),
            fleet: Fleet::new(alloc, Volume::new(chunks, sectors)),
            moves: 0,
            kind: None,
            passes: None,
            spare,
        };
        let mut answer = Answer::Done;
        for number in 0..chunks {
            match world.add(alloc, number as u8) {
                Ok(made) => answer = unless_done(answer, made),
                Err(error) => return Err((world.close(), error)),
            }
        }
        world.laws();
        Ok((world, answer))
    }

    /// Makes the group of the next chunk. `NoMemory` (1) leaves the world as it was.
    fn add(&mut self, alloc: Global, number: u8) -> Result<Answer, NoMemory>
        requires setup { IsSetup (setup_with self.old.world.sectors self.old.world.names self.old.world.format []) }
        requires number { number ≡ length self.old.world.chunks }
        requires disks { 6 ≤ length self.old.spare }
        ensures added { IfOk result (λ answer. HasAdded D.faults D.tells self.old answer self.new) }
        ensures err { OnErr result (self.new ≡ self.old) }
    {
        self.chunks.reserve(1)?;
        let (chunk, answer) = make(
            alloc,
            number,
            self.sectors,
            self.names,
            self.format,
            &mut self.spare,
        )?;
        self.chunks.push_reserved(chunk);
        Ok(answer)
    }

    /// Gives the disks back, in their order, with what the chunks left on them, where disks of their type tell it. It takes no memory.
    pub fn close(self) -> Vec<D>
        ensures { (before : List D) → drop (6 * length self.world.chunks) before ≡ self.spare → 6 * length self.world.chunks ≤ length before
            → AreLeft D.seen D.may_leave D.faults D.moment D.left_since D.tells D.tells_moments self.world.chunks before result.items }
    {
        let World {
            mut chunks,
            spare,
            ..
        } = self;
        let mut disks = spare;
        while let Some(chunk) = chunks.pop() {
            // That the group knows whether its disks tell is asked of the proof alone.
            chunk.laws();
            put_six(&mut disks, chunk.into_disks());
        }
        disks.reverse();
        disks
    }
}
