//! Laws of mounts over a layout whose asks groups serve, chunk by chunk.
ghost use Rattle.std.specs.Prelude.{◌≡◌, ◌≢◌, ℕ, ◌<◌, List, ◌++◌, length};
ghost use Rattle.pf_volume.specs.Volumes.{Extent, IsVolume};
ghost use Rattle.pf_paxos.specs.Quorums.{turns_on};
ghost use Rattle.pf_journal.specs.declared.layouts.Layout.{Layout};
ghost use Rattle.pf_journal.specs.Layouts.{VolumeHasRoom, layout_of};
ghost use Rattle.pf_law_lists.specs.Journals.{AreAllRegistersAt, history_at};
ghost use Rattle.pf_mount.specs.declared.work.MountWork.TheVariants.{Fails};
ghost use Rattle.pf_law_calls.specs.Lives.{MountTold, lives};
ghost use Rattle.pf_law_homes.specs.Chunks.{ChunkGroups};
ghost use Rattle.pf_law_homes.specs.Ports.{AreEvents, port_turns_on as port_turns};
ghost use Rattle.pf_law_homes.specs.Routed.{AreRoutedChunks};
ghost use Rattle.pf_law_events.specs.Events.{MountsAreServed, Happening, doings_of, port_events, mounts_told};

/// What comes to mounts are events of their ports, each ask at its place in the layout; and in each position and at each anchor they are
/// the turns of the journal, moment by moment.
pub fn events_at_ports_are_turns()
    ensures events { (layout : Layout) (v : Extent) (happenings : List Happening) → MountsAreServed layout v happenings
        → AreEvents (layout_of layout) v (port_events layout v happenings) }
    ensures turns { (layout : Layout) (v : Extent) (happenings : List Happening) (anchor position : ℕ) → MountsAreServed layout v happenings
        → anchor < length (layout_of layout).anchors → turns_on anchor
        (history_at (length (layout_of layout).anchors) (layout_of layout).quorum position (doings_of layout v happenings))
        ≡ port_turns anchor position (port_events layout v happenings) }
{}

/// So where groups serve the chunks of the volume, through any number of moves, the blocks of each anchor are registers.
pub fn anchors_over_chunks_are_registers()
    ensures { (layout : Layout) (v : Extent) (happenings : List Happening) (groups : (chunk : ℕ) → ChunkGroups) → VolumeHasRoom layout v → IsVolume v
        → MountsAreServed layout v happenings → AreRoutedChunks v groups (port_events layout v happenings)
        → AreAllRegistersAt (length (layout_of layout).anchors) (layout_of layout).quorum (doings_of layout v happenings) }
{}

/// And no mount ever fails for good: sector 0 has zeros or the volume's superblock, whoever reads it, since nobody writes anything else there.
pub fn mounts_never_fail()
    ensures { (layout : Layout) (v : Extent) (happenings : List Happening) (groups : (chunk : ℕ) → ChunkGroups) → VolumeHasRoom layout v → IsVolume v
        → MountsAreServed layout v happenings → AreRoutedChunks v groups (port_events layout v happenings)
        → (before after : List MountTold) (m : ℕ) → mounts_told happenings ≡ before ++ after → (lives layout v before m).mount.task.work ≢ Fails }
{}
