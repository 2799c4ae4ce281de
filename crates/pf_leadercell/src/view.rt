//! What a pass knows, and the rule of the cell, whose words are a term and a server.
use atomic_table::Split;
use crossbeam_utils::rule::{Outcome, Protocol};
use pf_base::{ServerId, Term};
use std::collections::LinkedList;

/// What a pass knows: whether it is the first, and the pairs that it has seen published. No value of it is ever made.
pub struct LeaderView {
    pub first: bool,
    pub seen: LinkedList<(Term, ServerId)>,
}

/// The rule of a leader cell.
pub struct Published;

impl Protocol<[u64; 2], LeaderView> for Published {
    ghost use Rattle.std.specs.Prelude.{true, [], ◌∷◌};
    ghost use Rattle.pf_leadercell.specs.Published.{pass_view, Kept};

    ghost holds = { Kept };

    ghost first = { pass_view true ((1, 0) ∷ []) };
}

/// Reads the pair.
pub(crate) struct Hint;

impl Outcome<[u64; 2], LeaderView> for Hint {
    ghost use Rattle.pf_leadercell.specs.Published.{Hints};

    ghost then = { Hints };
}

/// Writes a pair.
pub(crate) struct Publish;

impl Outcome<[u64; 2], LeaderView> for Publish {
    ghost use Rattle.pf_leadercell.specs.Published.{Publishes};

    ghost then = { Publishes };
}

/// Gives a new pass what a pass has seen.
pub(crate) struct CellTell;

impl Split<LeaderView> for CellTell {
    ghost use Rattle.std.specs.Prelude.{false};
    ghost use Rattle.pf_leadercell.specs.Published.{pass_view};

    ghost left = { λ v. v };

    ghost right = { λ v. pass_view false v.seen };
}
