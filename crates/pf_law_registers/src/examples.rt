//! The definitions at a worked history of a group.
ghost use Rattle.pf_entry.specs.Ops.{Sector};
ghost use Rattle.pf_protocol.specs.Shown.{IsSector};
ghost use Rattle.pf_law_registers.specs.Worked.{ShowsTheWrite};

use pf_protocol::deposed_leaders_answer_no_read;

/// The history in which a leader that was deposed answers no read: sector 0 has the one write of the new leader, and the
/// read that it answered shows this write.
pub fn reads_show_the_write_of_the_new_leader()
    ensures { (first : Sector) → IsSector first → ShowsTheWrite first }
{
    deposed_leaders_answer_no_read();
}
