//! Laws of places and of spellings.
ghost use Rattle.std.specs.Prelude.{◌≡◌, ℕ, ◌*◌, ◌/◌, ◌%◌, ◌+◌, ◌<◌, ◌≤◌, List, length};
ghost use Rattle.pf_entry.specs.Ops.{Sector, zero_sector};
ghost use Rattle.pf_paxos.specs.declared.block.Block.{Block};
ghost use Rattle.pf_paxos.specs.Blocks.{IsBlock, zero_block};
ghost use Rattle.pf_paxos.specs.Deciding.{Decides};
ghost use Rattle.pf_paxos.specs.Journals.{ProposerDoing, Begins, IsProposedList, proposer_journal_before, turns_at};
ghost use Rattle.pf_law_positions.specs.Deeds.{Deed, Groups};
ghost use Rattle.pf_law_positions.specs.Homes.{chunk_of_block, sector_of};
ghost use Rattle.pf_law_positions.specs.Volumes.{IsHostedJournal, home_of_position};
ghost use Rattle.pf_volume.specs.Volumes.{Extent, IsVolume};
ghost use Rattle.pf_journal.specs.declared.layouts.Layout.{Layout};
ghost use Rattle.pf_journal.specs.Layouts.{LayoutIs, IsLayout, VolumeHasRoom, home_on, layout_of, place_on, plain_layout, three};
ghost use Rattle.pf_journal.specs.Places.{place_of_block};
ghost use Rattle.pf_journal.specs.Sectors.{HasSpelling, IsBlockSpelling, block_bytes, block_in};

/// No two blocks of a journal have one place, and each place lies past the superblock's block, and before the file data.
pub fn places_are_apart()
    ensures apart { (position mount other its : ℕ) → mount < 16 → its < 16 → place_of_block position mount ≡ place_of_block other its
        → (position ≡ other) × (mount ≡ its) }
    ensures past_super { (position mount : ℕ) → 8 ≤ place_of_block position mount }
    ensures before_data { (position mount : ℕ) → position < 256 → mount < 16 → place_of_block position mount < 4104 }
{}

/// In a volume of chunks of so many sectors, the place of a block is where the position's home has it.
pub fn places_are_homes()
    ensures chunk { (sectors blocks position mount : ℕ) → sectors ≡ 8 * blocks → 0 < blocks
        → chunk_of_block (home_of_position sectors position) mount ≡ place_of_block position mount / sectors }
    ensures sector { (sectors blocks position mount : ℕ) → sectors ≡ 8 * blocks → 0 < blocks
        → sector_of (home_of_position sectors position) mount ≡ place_of_block position mount % sectors }
{}

/// Each layout is one of each volume that has room for it: no two of its blocks have one place, and none lies in the file data.
pub fn rooms_have_layouts()
    ensures { (layout : Layout) (v : Extent) → IsVolume v → VolumeHasRoom layout v → IsLayout (layout_of layout) v }
{}

/// The place of a block at an anchor is where the position's home there has it. At one place it is the home of before, and of three anchors
/// each is a chunk.
pub fn layouts_have_homes()
    ensures chunk { (l : LayoutIs) (v : Extent) (anchor position mount : ℕ) → IsVolume v → IsLayout l v → anchor < length l.anchors
        → chunk_of_block (home_on l v.sectors anchor position) mount ≡ place_on l anchor position mount / v.sectors }
    ensures sector { (l : LayoutIs) (v : Extent) (anchor position mount : ℕ) → IsVolume v → IsLayout l v → anchor < length l.anchors
        → sector_of (home_on l v.sectors anchor position) mount ≡ place_on l anchor position mount % v.sectors }
    ensures plain { (sectors position : ℕ) → home_on plain_layout sectors 0 position ≡ home_of_position sectors position }
    ensures anchors { (anchor position half : ℕ) → anchor < 3 → position < 255 → half < 2 → (home_on three 4096 anchor position).chunk half ≡ anchor }
    ensures places { (anchor position half : ℕ) → anchor < 3 → position < 255 → half < 2
        → (home_on three 4096 anchor position).first half ≡ place_of_block position (8 * half) }
{}

/// What is read of a block's spelling is the block, of a sector of zeros the block of zeros, and so it is of a sector that is the
/// spelling of none. Whatever the sector, it has the form of a block.
pub fn spelled_blocks_are_read()
    ensures spelled { (b : Block) → HasSpelling b → block_in (block_bytes b) ≡ b }
    ensures zeros { block_in zero_sector ≡ zero_block }
    ensures other { (sector : Sector) → ((b : Block) → IsBlockSpelling b sector → ⊥) → block_in sector ≡ zero_block }
    ensures form { (sector : Sector) → IsBlock (block_in sector) }
{}

/// No two blocks have one spelling.
pub fn spellings_are_apart()
    ensures { (b c : Block) → HasSpelling b → HasSpelling c → block_bytes b ≡ block_bytes c → b ≡ c }
{}

/// A journal whose blocks lie in chunks as these bytes has one list, over whatever legal histories of the chunks' groups: no position is
/// decided with two values, and what each mount has at any moment begins the transaction list.
pub fn journals_in_chunks_have_one_list()
    ensures agree { (groups : Groups) (sectors : ℕ) (deeds : List Deed) (doings : List ProposerDoing) → IsHostedJournal groups block_in sectors 256 deeds doings
        → (position a b : ℕ) (v w : List ℕ) → Decides (turns_at position doings) a v → Decides (turns_at position doings) b w → v ≡ w }
    ensures list { (groups : Groups) (sectors : ℕ) (deeds : List Deed) (doings : List ProposerDoing) → IsHostedJournal groups block_in sectors 256 deeds doings
        → (list : List (List ℕ)) × IsProposedList doings list × ((mount moment : ℕ) → Begins ((proposer_journal_before doings moment).list mount) list) }
{}
