//! Laws of files.
ghost use Rattle.std.specs.Prelude.{◌≡◌, ℕ, ◌++◌, ◌∷◌, [], List, Some, length};
ghost use Rattle.pf_volume.specs.Volumes.{Extent, IsVolume};
ghost use Rattle.pf_file_calls.specs.declared.answers.CallAnswer.{CallAnswer as AnswerIs};
ghost use Rattle.pf_journal.specs.declared.layouts.Layout.{Layout};
ghost use Rattle.pf_journal.specs.Layouts.{VolumeHasRoom};
ghost use Rattle.pf_law_homes.specs.Chunks.{ChunkGroups, groups_in};
ghost use Rattle.pf_law_homes.specs.Ports.{deeds_on};
ghost use Rattle.pf_law_homes.specs.Routed.{AreRoutedChunks};
ghost use Rattle.pf_mount.specs.declared.work.MountNext.TheVariants.{Done};
ghost use Rattle.pf_law_contents.specs.Serial.{AreSerial, AreServed as AreServedBlocks};
ghost use Rattle.pf_law_calls.specs.Since.{called};
ghost use Rattle.pf_law_calls.specs.Answering.{next_by};
ghost use Rattle.pf_law_calls.specs.Doings.{HaveRegisters, IsListOf};
ghost use Rattle.pf_law_calls.specs.Lives.{CanBe, Input, MountTold, lives};
ghost use Rattle.pf_law_calls.specs.Spelled.{CanAllBeSpelled};
ghost use Rattle.pf_law_calls.specs.Trees.{AreFewCalls, data_blocks};
ghost use Rattle.pf_law_events.specs.Events.{MountsAreServed, Happening, port_events, mounts_told};
ghost use Rattle.pf_law_files.specs.Blocks.{is_data_piece};
ghost use Rattle.pf_law_files.specs.Calls.{AreOfOneMount, AreOneAtATime, HaveEnded, ReadsGiveContents, WentOneByOne, data_in, done_calls};
ghost use Rattle.pf_law_files.specs.Ordered.{ReadsGiveContentsInOrder};

/// Where one mount alone makes calls, they are one at a time.
pub fn calls_of_one_mount_are_one_at_a_time()
    ensures { (layout : Layout) (v : Extent) (told : List MountTold) (m : ℕ) → CanBe layout v told → AreOfOneMount told m → AreOneAtATime layout v told }
{}

/// Where calls are one at a time and one ends, all calls before it went one after another on a new volume, each to its end on the tables that
/// those before it left, and so did it. So the list of transactions grows by one call at a time, and all that was asked and answered at ports
/// for file data is what these calls asked, one after another.
pub fn calls_one_at_a_time_go_one_by_one()
    ensures { (layout : Layout) (v : Extent) (told : List MountTold) (list : List (List ℕ))
        → IsVolume v → CanBe layout v told → HaveRegisters layout v told → IsListOf layout v told list → CanAllBeSpelled told → AreFewCalls told
        → (before after : List MountTold) (m : ℕ) (input : Input) (answer : AnswerIs)
        → told ≡ before ++ record { mount = m; input = input } ∷ after → next_by (lives layout v before m).mount input ≡ Some (Done answer)
        → let now = before ++ record { mount = m; input = input } ∷ [] in
        AreOneAtATime layout v now
        → WentOneByOne v (data_blocks layout v) m (done_calls layout v before) (called (lives layout v before m).mount input)
        (data_in layout v now) answer }
{}

/// Where calls are one at a time and all have ended, what was asked and answered at ports for file data was asked one at a time of the chunks,
/// each before the next one, of whole blocks behind the journal; and nobody else asked to write one of these. So it is through any number of
/// moves of the chunks.
pub fn data_of_calls_one_at_a_time_are_serial()
    ensures { (layout : Layout) (v : Extent) (happenings : List Happening) (list : List (List ℕ)) (groups : (chunk : ℕ) → ChunkGroups)
        → IsVolume v → VolumeHasRoom layout v → MountsAreServed layout v happenings
        → HaveRegisters layout v (mounts_told happenings) → IsListOf layout v (mounts_told happenings) list
        → AreRoutedChunks v groups (port_events layout v happenings)
        → (first rest : List Happening) → happenings ≡ first ++ rest
        → AreOneAtATime layout v (mounts_told first) → HaveEnded layout v (mounts_told first)
        → let deeds = deeds_on (port_events layout v happenings) in
        AreServedBlocks (is_data_piece layout v) (λ chunk. groups_in (groups chunk)) deeds
        × AreSerial (is_data_piece layout v) deeds 0 (data_in layout v (mounts_told first)) (length (port_events layout v first)) }
{}

/// A read of a file gives the file's contents: where calls are one at a time, of whatever mounts, each read is refused or gives the bytes that the
/// calls before it which were not refused have left in the file, one after another, and zeros where none has put any; through any number of moves
/// of its chunks.
pub fn reads_of_calls_one_at_a_time_give_the_contents()
    ensures { (layout : Layout) (v : Extent) (happenings : List Happening) (list : List (List ℕ)) (groups : (chunk : ℕ) → ChunkGroups)
        → IsVolume v → VolumeHasRoom layout v → MountsAreServed layout v happenings
        → HaveRegisters layout v (mounts_told happenings) → IsListOf layout v (mounts_told happenings) list
        → CanAllBeSpelled (mounts_told happenings) → AreFewCalls (mounts_told happenings)
        → AreRoutedChunks v groups (port_events layout v happenings)
        → ReadsGiveContents layout v (mounts_told happenings) }
{}

/// A read of a file gives the file's contents, also where calls go beside each other, of whatever mounts: where of each block of the file the calls
/// that touch it are apart in time, and had ended before the read began, the read is refused or gives what the calls up to its mount's position
/// have left in the file, in the order of the list of transactions; through any number of moves of its chunks.
pub fn reads_of_calls_that_are_apart_give_the_contents()
    ensures { (layout : Layout) (v : Extent) (happenings : List Happening) (list : List (List ℕ)) (groups : (chunk : ℕ) → ChunkGroups)
        → IsVolume v → VolumeHasRoom layout v → MountsAreServed layout v happenings
        → HaveRegisters layout v (mounts_told happenings) → IsListOf layout v (mounts_told happenings) list
        → CanAllBeSpelled (mounts_told happenings) → AreFewCalls (mounts_told happenings)
        → AreRoutedChunks v groups (port_events layout v happenings)
        → ReadsGiveContentsInOrder layout v list (mounts_told happenings) }
{}
