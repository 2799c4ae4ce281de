//! A law of moves.
ghost use Rattle.std.specs.Prelude.{◌≡◌, ℕ, ◌<◌, List};
ghost use Rattle.pf_move.specs.Movers.{MoverIs, new_mover};
ghost use Rattle.pf_move.specs.Turns.{IsCopied, MoverTurn, Turns};

/// Whatever calls of a mover follow each other: it reads the pieces in order, writes each one that is not all zeros once, with the bytes
/// that were read, and switches exactly where every piece was read and every write was answered.
pub fn pieces_are_written_once()
    ensures { (chunk count : ℕ) (turns : List MoverTurn) (new : MoverIs) → 0 < count → Turns (new_mover chunk count) turns new → IsCopied count turns }
{}
