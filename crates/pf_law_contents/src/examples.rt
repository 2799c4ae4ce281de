//! The definitions at worked calls.
ghost use Rattle.pf_law_contents.specs.Worked.{CutsAndGrows, LeavesAGap, MovesWithItsDirectory};

/// What lies between the end of a file and a write behind it is zeros.
pub fn a_gap_is_zeros()
    ensures { LeavesAGap }
{}

/// What a truncate cuts off is zeros when the file grows again.
pub fn what_was_cut_is_zeros()
    ensures { CutsAndGrows }
{}

/// A file keeps its bytes when the directory above it gets another name, and a new file at the old path is empty.
pub fn files_move_with_their_directory()
    ensures { MovesWithItsDirectory }
{}
