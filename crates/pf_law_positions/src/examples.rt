//! The definitions at a worked history of a group.
ghost use Rattle.std.specs.Prelude.{◌≡◌};
ghost use Rattle.pf_entry.specs.Ops.{Sector, zero_sector};
ghost use Rattle.pf_protocol.specs.Shown.{IsSector};
ghost use Rattle.pf_paxos.specs.declared.block.Block.{Block};
ghost use Rattle.pf_paxos.specs.Blocks.{zero_block};
ghost use Rattle.pf_law_positions.specs.Homes.{turns_in};
ghost use Rattle.pf_law_positions.specs.Hosted.{IsHosted};
ghost use Rattle.pf_law_positions.specs.Worked.{its_home, its_groups, its_deeds, its_turns};
ghost use Rattle.pf_law_positions.specs.Carried.{two_chunks, moved_groups, moved_deeds, moved_turns};

use pf_protocol::deposed_leaders_answer_no_read;

/// At the history in which a leader that was deposed answers no read, deeds of one mount fit: it wrote its block of a position, was
/// answered, and then read a sector.
pub fn a_mount_writes_its_block()
    ensures hosted { (first : Sector) (read : Sector → Block) → IsSector first → read zero_sector ≡ zero_block
        → IsHosted (its_groups first) read its_home (its_deeds first) }
    ensures turns { (first : Sector) (read : Sector → Block) → turns_in read its_home (its_deeds first) ≡ its_turns (read first) }
{
    deposed_leaders_answer_no_read();
}

/// Two chunks were moved once each, with nothing in them, and then a client reads the half of a position that lies in one of them: it
/// finds blocks of zeros.
pub fn a_half_is_read_after_a_move()
    ensures hosted { (read : Sector → Block) → read zero_sector ≡ zero_block → IsHosted moved_groups read two_chunks moved_deeds }
    ensures turns { (read : Sector → Block) → turns_in read two_chunks moved_deeds ≡ moved_turns (read zero_sector) }
{}
