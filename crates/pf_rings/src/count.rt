//! How many requests stand in a ring: a word that the host raises and the server thread lowers, its rule, and what each step tells.
use atomic_table::{Join, Play, Split, TableRule};
use std::collections::LinkedList;

/// A call, as the history of a ring has it: a request was put, or eight stood; one was taken, or none stood.
pub enum RingCall {
    Put,
    Full,
    Take,
    Empty,
}

/// What a seat knows: whether it is the host's and the server thread's, and the history that each has seen. No value of it is ever made.
pub struct RingSight {
    pub puts: bool,
    pub takes: bool,
    pub host: LinkedList<RingCall>,
    pub server: LinkedList<RingCall>,
}

/// The rule of the word.
pub struct Counting;

impl TableRule<(), RingSight, ()> for Counting {
    ghost use Rattle.std.specs.Prelude.{true, []};
    ghost use Rattle.pf_rings.specs.Counted.{sight_of, Counted};

    ghost holds = { λ _. Counted };

    ghost first = { λ _. sight_of true true [] [] };
}

/// One seat is the host's, and the other the server thread's.
pub(crate) struct Sides;

impl Split<RingSight> for Sides {
    ghost use Rattle.std.specs.Prelude.{true, false};
    ghost use Rattle.pf_rings.specs.Counted.{sight_of};

    ghost left = { λ v. sight_of true false v.host v.server };

    ghost right = { λ v. sight_of false true v.host v.server };
}

impl Join<RingSight> for Sides {
    ghost use Rattle.std.specs.Prelude.{true, false, []};
    ghost use Rattle.pf_rings.specs.Counted.{sight_of};

    ghost both = { λ v w. sight_of true true v.host w.server };

    ghost spent = { sight_of false false [] [] };
}

/// The host looks for a place.
pub(crate) struct LookForPlace;

impl Play<(), RingSight> for LookForPlace {
    ghost use Rattle.pf_rings.specs.Counted.{finds_place};

    ghost then = { finds_place };
}

/// The host has put a request.
pub(crate) struct Raise;

impl Play<(), RingSight> for Raise {
    ghost use Rattle.pf_rings.specs.Counted.{raises};

    ghost then = { raises };
}

/// The server thread looks for a request.
pub(crate) struct LookForRequest;

impl Play<(), RingSight> for LookForRequest {
    ghost use Rattle.pf_rings.specs.Counted.{finds_request};

    ghost then = { finds_request };
}

/// The server thread has taken a request.
pub(crate) struct Lower;

impl Play<(), RingSight> for Lower {
    ghost use Rattle.pf_rings.specs.Counted.{lowers};

    ghost then = { lowers };
}

/// The two sides see the whole history.
pub(crate) struct SeeAll;

impl Play<(), RingSight> for SeeAll {
    ghost use Rattle.pf_rings.specs.Counted.{sees_all};

    ghost then = { sees_all };
}
