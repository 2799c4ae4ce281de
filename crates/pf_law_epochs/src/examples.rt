//! The definitions at worked histories.
ghost use Rattle.pf_entry.specs.Ops.{Sector};
ghost use Rattle.pf_protocol.specs.Shown.{IsSector};
ghost use Rattle.pf_law_epochs.specs.Worked.{OrdersTwoWriters, WritesAfterMoves};

use pf_law_positions::{a_half_is_read_after_a_move, a_mount_writes_its_block};
use pf_law_registers::reads_show_the_write_of_the_new_leader;

/// A chunk is moved twice with nothing but zeros in it; then a client writes a sector of it, and reads it. This is routed as the laws want
/// it, and the sector's order has the one write. It was asked in turn, and is the last one that was asked before the read.
pub fn a_sector_is_written_after_two_moves()
    ensures { (first : Sector) → IsSector first → WritesAfterMoves first }
{
    reads_show_the_write_of_the_new_leader();
    a_mount_writes_its_block();
    a_half_is_read_after_a_move();
}

/// A sector is moved between the writes of two clients, and its order has these two in turn, and not the mover's between them.
pub fn a_sector_is_moved_between_two_writers()
    ensures { (first second : Sector) → IsSector first → IsSector second → OrdersTwoWriters first second }
{
    reads_show_the_write_of_the_new_leader();
}
