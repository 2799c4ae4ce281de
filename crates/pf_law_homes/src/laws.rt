//! Laws of the positions of a journal in the chunks of a volume.
ghost use Rattle.std.specs.Prelude.{◌≡◌, ℕ, ◌<◌, List, length};
ghost use Rattle.pf_entry.specs.Ops.{Sector, zero_sector};
ghost use Rattle.pf_volume.specs.Volumes.{Extent, IsVolume};
ghost use Rattle.pf_paxos.specs.declared.block.Block.{Block};
ghost use Rattle.pf_paxos.specs.Blocks.{zero_block};
ghost use Rattle.pf_paxos.specs.Registers.{AreRegisters};
ghost use Rattle.pf_law_positions.specs.Deeds.{Deed};
ghost use Rattle.pf_law_positions.specs.Homes.{PositionHome, turns_in};
ghost use Rattle.pf_law_homes.specs.Chunks.{AreDeedsAt, ChunkGroups, IsRoutedHalf, only_half};
ghost use Rattle.pf_journal.specs.Layouts.{IsLayout, LayoutIs};
ghost use Rattle.pf_law_homes.specs.Ports.{AreEvents, PortEvent, port_turns_on};
ghost use Rattle.pf_law_homes.specs.Routed.{AreRoutedChunks};

/// The blocks of one half of a position are registers, by the deeds at its chunk alone, whatever else is written and read there.
pub fn halves_in_chunks_are_registers()
    ensures { (groups : ChunkGroups) (read : Sector → Block) (home : PositionHome) (half : ℕ) (deeds : List Deed) → half < 2
        → AreDeedsAt (home.chunk half) deeds → read zero_sector ≡ zero_block → IsRoutedHalf groups home half deeds
        → AreRegisters (turns_in read (only_half home half) deeds) }
{}

/// The blocks of each position on each anchor are registers, to the mounts whose ports asked and were answered, where groups serve the
/// chunks, through any number of moves: whether its halves lie in one chunk or in two, and whatever else lies in these chunks, as other
/// positions, other anchors, or file data.
pub fn positions_over_chunks_are_registers()
    ensures { (l : LayoutIs) (v : Extent) (events : List PortEvent) (groups : (chunk : ℕ) → ChunkGroups) → IsLayout l v → IsVolume v → AreEvents l v events
        → AreRoutedChunks v groups events → (anchor position : ℕ) → anchor < length l.anchors → position < l.positions
        → AreRegisters (port_turns_on anchor position events) }
{}
