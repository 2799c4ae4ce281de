//! What a mount asks of the journal and of the superblock.
ghost use Rattle.std.specs.Prelude.{◌≡◌, ◌<◌, ◌∷◌, [], IfOk, length};
ghost use Rattle.pf_volume.specs.Volumes.{size_of};
ghost use Rattle.pf_paxos.specs.Blocks.{IsBlock};
ghost use Rattle.pf_file_calls.specs.Blocks.{AskIsInside, data_writes};
ghost use Rattle.pf_journal.specs.Layouts.{VolumeHasRoom, layout_of};
ghost use Rattle.pf_mount_errands.specs.Places.{reads_first, reads_half, reads_super, writes_own, writes_super};

use crate::journals_are_asked_inside;
use pf_base::{Ask, NoMemory, Sector};
use pf_file_calls::{reads, writes};
use pf_journal::{Layout, rooms_have_layouts, spell_block};
use pf_layout::spell_super;
use pf_paxos::Block;
use pf_volume::Volume;
use std::alloc::Global;

/// A read of one half of a position on an anchor: blocks 0 to 7, or 8 to 15.
pub fn reads_half(layout: Layout, volume: &Volume, anchor: u8, position: u32, half: u8) -> Ask
    requires volume { VolumeHasRoom layout volume.now }
    requires anchor { anchor < length (layout_of layout).anchors }
    requires position { position < (layout_of layout).positions }
    requires half { half < 2 }
    ensures ask { result ≡ reads_half (layout_of layout) volume.now anchor position half }
    ensures inside { AskIsInside volume.now result }
{
    journals_are_asked_inside();
    rooms_have_layouts();
    volume.laws();
    reads(volume, layout.place_on(anchor, position, 8 * half), 8)
}

/// A read of the first block of a position on an anchor.
pub fn reads_first(layout: Layout, volume: &Volume, anchor: u8, position: u32) -> Ask
    requires volume { VolumeHasRoom layout volume.now }
    requires anchor { anchor < length (layout_of layout).anchors }
    requires position { position < (layout_of layout).positions }
    ensures ask { result ≡ reads_first (layout_of layout) volume.now anchor position }
    ensures inside { AskIsInside volume.now result }
{
    journals_are_asked_inside();
    rooms_have_layouts();
    volume.laws();
    reads(volume, layout.place_on(anchor, position, 0), 1)
}

/// A write of the block of a mount in a position on an anchor. The one error is `NoMemory` (1).
pub fn writes_own(
    alloc: Global,
    layout: Layout,
    volume: &Volume,
    anchor: u8,
    position: u32,
    mount: u8,
    block: &Block,
) -> Result<Ask, NoMemory>
    requires volume { VolumeHasRoom layout volume.now }
    requires anchor { anchor < length (layout_of layout).anchors }
    requires position { position < (layout_of layout).positions }
    requires mount { mount < 16 }
    requires form { IsBlock block.now }
    ensures ask { IfOk result (λ ask. ask ≡ writes_own (layout_of layout) volume.now anchor position mount block.now) }
    ensures inside { IfOk result (AskIsInside volume.now) }
{
    journals_are_asked_inside();
    rooms_have_layouts();
    volume.laws();
    let sector = spell_block(block);
    writes_one(
        alloc,
        volume,
        layout.place_on(anchor, position, mount),
        sector,
    )
}

/// A read of the superblock.
pub fn reads_super(volume: &Volume) -> Ask
    ensures ask { result ≡ reads_super volume.now }
    ensures inside { AskIsInside volume.now result }
{
    journals_are_asked_inside();
    volume.laws();
    reads(volume, 0, 1)
}

/// A write of the superblock of the volume. The one error is `NoMemory` (1).
pub fn writes_super(alloc: Global, volume: &Volume) -> Result<Ask, NoMemory>
    ensures ask { IfOk result (λ ask. ask ≡ writes_super volume.now) }
    ensures inside { IfOk result (AskIsInside volume.now) }
{
    journals_are_asked_inside();
    volume.laws();
    let sector = spell_super(volume.chunks(), volume.sectors());
    writes_one(alloc, volume, 0, sector)
}

/// A write of one sector of the volume. The one error is `NoMemory` (1).
fn writes_one(alloc: Global, volume: &Volume, first: u32, sector: Sector) -> Result<Ask, NoMemory>
    requires { first < size_of volume.now }
    ensures { IfOk result (λ ask. ask ≡ data_writes volume.now first (sector ∷ [])) }
{
    volume.laws();
    let mut sectors = Vec::with_capacity(alloc, 1)?;
    sectors.push(sector)?;
    writes(alloc, volume, first, sectors)
}
