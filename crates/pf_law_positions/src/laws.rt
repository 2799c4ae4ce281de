//! Laws of every list of deeds that fits the histories of groups.
ghost use Rattle.std.specs.Prelude.{◌≡◌, ℕ, ◌+◌, ◌*◌, ◌<◌, ◌≤◌, List, Some};
ghost use Rattle.pf_entry.specs.Ops.{Sector};
ghost use Rattle.pf_protocol.specs.Answers.{IsLegal};
ghost use Rattle.pf_protocol.specs.Ports.{FollowsRule};
ghost use Rattle.pf_paxos.specs.declared.block.Block.{Block};
ghost use Rattle.pf_paxos.specs.Registers.{AsksWrite, AsksRead, AreRegisters};
ghost use Rattle.pf_paxos.specs.Copies.{AreCopies};
ghost use Rattle.pf_paxos.specs.Runs.{ProposerEvent, turns_of};
ghost use Rattle.pf_paxos.specs.Deciding.{Decides};
ghost use Rattle.pf_paxos.specs.Journals.{ProposerDoing, turns_at, AreAllRegisters};
ghost use Rattle.pf_law_positions.specs.Deeds.{Puts, Gets, Groups, Deed, DeedsFit};
ghost use Rattle.pf_law_positions.specs.Homes.{PositionHome, chunk_of_block, ask_in, turns_in};
ghost use Rattle.pf_law_positions.specs.Hosted.{IsHosted};
ghost use Rattle.pf_law_positions.specs.Volumes.{home_of_position, IsSameJournal, IsHostedJournal};
ghost use Rattle.pf_law_positions.specs.Asked.{block_op, half_range, HalvesAreApart};

/// The port of each client follows the rule of ports, where its deeds fit the histories of the chunk's groups.
pub fn ports_follow_their_rule()
    ensures { (groups : Groups) (deeds : List Deed) (chunk : ℕ) → DeedsFit groups deeds chunk → (epoch client : ℕ) → epoch ≤ groups.moves chunk
        → IsLegal (groups.setup chunk epoch) (groups.history chunk epoch)
        → FollowsRule (groups.setup chunk epoch) (groups.history chunk epoch) (groups.writes chunk epoch client) }
{}

/// The blocks of a position that lie in chunks are registers whose writes may be copied, whatever the groups of the chunks do, and
/// however often each chunk was moved.
pub fn hosted_positions_are_copies()
    ensures { (groups : Groups) (read : Sector → Block) (home : PositionHome) (deeds : List Deed) → IsHosted groups read home deeds
        → AreCopies (turns_in read home deeds) }
{}

/// And so they are registers.
pub fn hosted_positions_are_registers()
    ensures { (groups : Groups) (read : Sector → Block) (home : PositionHome) (deeds : List Deed) → IsHosted groups read home deeds
        → AreRegisters (turns_in read home deeds) }
{}

/// No position that lies in chunks is decided with two values.
pub fn hosted_positions_have_one_value()
    ensures { (groups : Groups) (read : Sector → Block) (home : PositionHome) (deeds : List Deed) (events : List ProposerEvent)
        → IsHosted groups read home deeds → turns_of events ≡ turns_in read home deeds → (a b : ℕ) (v w : List ℕ) → Decides (turns_in read home deeds) a v
        → Decides (turns_in read home deeds) b w → v ≡ w }
{}

/// Where the doings of a journal are what the ports did, moment by moment, the turns of each position are those of the deeds.
pub fn turns_are_told()
    ensures { (read : Sector → Block) (sectors count : ℕ) (deeds : List Deed) (doings : List ProposerDoing) → IsSameJournal read sectors count deeds doings
        → (position : ℕ) → position < count → turns_at position doings ≡ turns_in read (home_of_position sectors position) deeds }
{}

/// The positions of a journal in a volume are registers.
pub fn hosted_journals_are_registers()
    ensures { (groups : Groups) (read : Sector → Block) (sectors count : ℕ) (deeds : List Deed) (doings : List ProposerDoing)
        → IsHostedJournal groups read sectors count deeds doings → AreAllRegisters doings }
{}

/// Each half of a position lies in one chunk, and the two lie apart.
pub fn halves_lie_in_chunks()
    ensures inside { (sectors blocks position half : ℕ) → sectors ≡ 8 * blocks → 0 < blocks → (home_of_position sectors position).first half + 8 ≤ sectors }
    ensures apart { (sectors blocks position : ℕ) → sectors ≡ 8 * blocks → 1 < blocks → HalvesAreApart (home_of_position sectors position) }
{}

/// A mount's write of its spelled block is the write of this block in the position.
pub fn spelled_blocks_are_asked()
    ensures { (read : Sector → Block) (spell : Block → Sector) (home : PositionHome) (client : ℕ) (block : Block) → client < 16 → read (spell block) ≡ block
        → ask_in read home client (Puts (chunk_of_block home client) (block_op spell home client block)) ≡ Some (AsksWrite block) }
{}

/// A read of eight sectors at which a half lies is the read of this half.
pub fn halves_are_asked()
    ensures { (read : Sector → Block) (home : PositionHome) (client half : ℕ) → half < 2 → HalvesAreApart home
        → ask_in read home client (Gets (home.chunk half) (half_range home half)) ≡ Some (AsksRead half) }
{}
