//! A law of what is asked of a journal.
ghost use Rattle.std.specs.Prelude.{ℕ, ◌<◌, length};
ghost use Rattle.pf_volume.specs.Volumes.{Extent, IsVolume};
ghost use Rattle.pf_paxos.specs.declared.block.Block.{Block};
ghost use Rattle.pf_file_calls.specs.Blocks.{AskIsInside};
ghost use Rattle.pf_journal.specs.declared.layouts.Layout.{Layout};
ghost use Rattle.pf_journal.specs.Layouts.{VolumeHasRoom, layout_of};
ghost use Rattle.pf_mount_errands.specs.Places.{reads_first, reads_half, reads_super, writes_own, writes_super};

use pf_journal::rooms_have_layouts;
use pf_volume::places_are_apart;

/// Each ask for the journal or the superblock is valid, and its sectors lie in one chunk of a volume that has room for the layout.
pub fn journals_are_asked_inside()
    ensures half { (layout : Layout) (v : Extent) (anchor position half : ℕ) → IsVolume v → VolumeHasRoom layout v → anchor < length (layout_of layout).anchors
        → position < (layout_of layout).positions → half < 2 → AskIsInside v (reads_half (layout_of layout) v anchor position half) }
    ensures own { (layout : Layout) (v : Extent) (anchor position mount : ℕ) (block : Block) → IsVolume v → VolumeHasRoom layout v
        → anchor < length (layout_of layout).anchors → position < (layout_of layout).positions → mount < 16
        → AskIsInside v (writes_own (layout_of layout) v anchor position mount block) }
    ensures first { (layout : Layout) (v : Extent) (anchor position : ℕ) → IsVolume v → VolumeHasRoom layout v → anchor < length (layout_of layout).anchors
        → position < (layout_of layout).positions → AskIsInside v (reads_first (layout_of layout) v anchor position) }
    ensures reads_super { (v : Extent) → IsVolume v → AskIsInside v (reads_super v) }
    ensures writes_super { (v : Extent) → IsVolume v → AskIsInside v (writes_super v) }
{
    rooms_have_layouts();
    places_are_apart();
}
