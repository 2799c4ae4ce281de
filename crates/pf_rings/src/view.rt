//! What a pass knows, and the rule of a ring.
use crossbeam_queue::protocol::{Join, Lesson, Outcome, Protocol, Split};
use pf_base::Range;
use std::collections::LinkedList;

/// What a host asks: its request of this number, to fill the sectors of the range with the byte.
#[derive(Clone, Copy, Debug, PartialEq, Eq)]
pub struct Request {
    pub host: u32,
    pub number: u32,
    pub range: Range,
    pub byte: u8,
}

/// What a pass knows: whether it puts and takes, what was put and what was taken. No value of it is ever made.
pub struct RingView {
    pub puts: bool,
    pub takes: bool,
    pub sent: LinkedList<Request>,
    pub got: LinkedList<Request>,
}

/// The rule of a ring.
pub struct InOrder;

impl Protocol<Request, RingView> for InOrder {
    ghost use Rattle.std.specs.Prelude.{true, []};
    ghost use Rattle.pf_rings.specs.Relayed.{relay_view, Relayed};

    ghost holds = { Relayed };

    ghost first = { relay_view true true [] [] };
}

/// One pass puts, and the other takes.
pub(crate) struct Roles;

impl Split<RingView> for Roles {
    ghost use Rattle.std.specs.Prelude.{true, false};
    ghost use Rattle.pf_rings.specs.Relayed.{relay_view};

    ghost left = { λ v. relay_view true false v.sent v.got };

    ghost right = { λ v. relay_view false true v.sent v.got };
}

impl Join<RingView> for Roles {
    ghost use Rattle.std.specs.Prelude.{true, false, []};
    ghost use Rattle.pf_rings.specs.Relayed.{relay_view};

    ghost both = { λ v w. relay_view true true v.sent w.got };

    ghost spent = { relay_view false false [] [] };
}

/// Puts a request.
pub(crate) struct Put;

impl Outcome<Request, RingView> for Put {
    ghost use Rattle.pf_rings.specs.Relayed.{HasPut};

    ghost then = { HasPut };
}

impl Lesson<Request, RingView> for Put {
    ghost fact = { λ _ _. Unit {0} };
}

/// Takes a request.
pub(crate) struct Take;

impl Outcome<Request, RingView> for Take {
    ghost use Rattle.pf_rings.specs.Relayed.{RingHasTaken};

    ghost then = { RingHasTaken };
}

impl Lesson<Request, RingView> for Take {
    ghost fact = { λ _ _. Unit {0} };
}

/// Learns that what was put is what was taken and what the ring holds.
pub(crate) struct Meet;

impl Lesson<Request, RingView> for Meet {
    ghost use Rattle.pf_rings.specs.Relayed.{Meets};

    ghost fact = { Meets };
}
