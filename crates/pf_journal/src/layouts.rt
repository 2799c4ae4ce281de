//! Where the journal of a volume lies.
ghost use Rattle.std.specs.Prelude.{◌≡◌, ◌↔◌, ◌<◌, ◌≤◌, IsTrue, length};
ghost use Rattle.pf_journal.specs.Layouts.{HasPlace, VolumeHasRoom, layout_of, place_on};

use crate::place_of;
use pf_base::FIRST_DATA_BLOCK;
use pf_volume::Volume;

/// How many sectors an anchor has.
const ANCHOR: u32 = 4096;

/// How many sectors a volume has at least that has the journal at one place: its superblock, its 256 positions, and a block of file data.
const LEAST_SECTORS: u32 = 4112;

/// Where the journal of a volume lies.
#[derive(Clone, Copy, Debug, PartialEq, Eq)]
pub enum Layout {
    /// At one place, behind the superblock.
    Plain,
    /// At three anchors, the first three chunks of 4,096 sectors, of which a ballot and a sync need any two. There is no superblock.
    Three,
}

impl Layout {
    /// How many anchors there are, one to three.
    pub fn anchors(&self) -> u8
        ensures count { result ≡ length (layout_of self.now).anchors }
        ensures few { result ≤ 3 }
    {
        match self {
            Layout::Plain => 1,
            Layout::Three => 3,
        }
    }

    /// How many of the anchors a ballot and a sync need.
    pub fn quorum(&self) -> u8
        ensures { result ≡ (layout_of self.now).quorum }
    {
        match self {
            Layout::Plain => 1,
            Layout::Three => 2,
        }
    }

    /// How many positions the journal has, at most 256.
    pub fn positions(&self) -> u32
        ensures count { result ≡ (layout_of self.now).positions }
        ensures few { result ≤ 256 }
    {
        match self {
            Layout::Plain => 256,
            Layout::Three => 255,
        }
    }

    /// The first block of file data.
    pub fn first(&self) -> u32
        ensures { result ≡ (layout_of self.now).first }
    {
        match self {
            Layout::Plain => FIRST_DATA_BLOCK as u32,
            Layout::Three => 1536,
        }
    }

    /// Whether the volume's first sector is a superblock.
    pub fn has_super(&self) -> bool
        ensures { result ≡ (layout_of self.now).has_super }
    {
        match self {
            Layout::Plain => true,
            Layout::Three => false,
        }
    }

    /// Whether a volume has room for the journal and some file data behind it.
    pub fn has_room(&self, volume: &Volume) -> bool
        ensures { IsTrue result ↔ VolumeHasRoom self.now volume.now }
    {
        match self {
            Layout::Plain => LEAST_SECTORS <= volume.size(),
            Layout::Three => 4 <= volume.chunks() && volume.sectors() == ANCHOR,
        }
    }

    /// The sector of the volume, numbered through its chunks, that has at this anchor the block of a mount in a position.
    pub fn place_on(&self, anchor: u8, position: u32, mount: u8) -> u32
        requires { HasPlace (layout_of self.now) anchor position mount }
        ensures { result ≡ place_on (layout_of self.now) anchor position mount }
    {
        match self {
            Layout::Plain => place_of(position, mount),
            Layout::Three => ANCHOR * u32::from(anchor) + place_of(position, mount),
        }
    }
}
