//! What a worker is.
use std::sync::Wait;

/// What one turn of a worker came to.
#[derive(Clone, Copy, Debug, PartialEq, Eq)]
pub enum Turned {
    /// It did something, and may go on.
    Went,
    /// It found nothing where it looked, and has not looked everywhere since it last waited.
    Looks,
    /// There is nothing to do until others have done something.
    Waits,
    /// It is done for good.
    Ends,
}

/// A worker, whose turns share a context with those of others.
pub trait Works<C>: Drop {
    /// The worker may take a turn.
    ghost fits: { C → Self → Type 0 };

    /// What it may become by turns.
    ghost goes: { C → Self → Self → Type 0 };

    fn turn<R: Wait>(&mut self, rt: &R, context: &C) -> Turned
        requires { fits context.now self.old }
        ensures fits { fits context.now self.new }
        ensures goes { goes context.now self.old self.new };

    /// Sleeps until others have done something, unless they did since it had been called so often. How often it was called now: whoever
    /// does something calls those that may have waited for it, in its turn, after it.
    fn rest<R: Wait>(&self, rt: &R, context: &C, heard: u64) -> u64;

    ghost stays: { (c : C) (x : Self) → goes c x x };

    ghost goes_on: { (c : C) (x y z : Self) → goes c x y → goes c y z → goes c x z };
}
