//! A read that waits for its answer, and whether its server runs in its term.
ghost use Rattle.std.specs.Prelude.{◌≡◌, IsTrue};
ghost use Rattle.pf_chunk_waiting.specs.Waiters.{is_in_term};

use pf_base::{ServerId, Term};

/// A read that was not answered, with the server that took it up and the term in which it did.
#[derive(Clone, Copy, Debug, PartialEq, Eq)]
pub struct Waiting {
    pub number: u64,
    pub server: ServerId,
    pub term: Term,
}

/// For each server the term in which it runs.
pub type Terms = [Option<Term>; 3];

/// Whether the server of a read runs in its term.
pub(crate) fn is_in_term(terms: &Terms, one: &Waiting) -> bool
    ensures { result ≡ is_in_term terms.now one.now }
{
    match terms.get(one.server as usize) {
        Some(Some(term)) => *term == one.term,
        Some(None) => false,
        None => false,
    }
}

/// Whether both have the same terms.
pub(crate) fn are_same(some: &Terms, others: &Terms) -> bool
    ensures { IsTrue result → some.now ≡ others.now }
{
    some[0] == others[0] && some[1] == others[1] && some[2] == others[2]
}
