//! What the value behind a turn stands for.
ghost use Rattle.std.specs.Prelude.{List};
ghost use Rattle.pf_turn.specs.declared.log.Stamped.{Stamped};

/// An entry, with the number of the seat that made it.
#[derive(Drop)]
pub struct Stamped<E> {
    pub seat: u64,
    pub what: E,
}

/// A value that stands for a list of entries and a root, which is what never changes of the value.
pub trait Logged<E, K> {
    ghost log: { Self → List (Stamped E) };

    ghost root: { Self → K };
}
