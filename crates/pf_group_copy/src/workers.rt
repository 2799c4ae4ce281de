//! Threads that copy sectors.
ghost use Rattle.std.specs.Prelude.{◌≤◌};

use std::alloc::{AllocError, Global};

/// What the copying of sectors needs: the runtime that starts its threads, the allocator of the copies, the gate that is called round
/// each of them, and how many threads there are at most.
pub struct Workers<'a, R, G> {
    pub rt: &'a R,
    pub alloc: Global,
    pub gate: &'a G,
    /// 1 to 8.
    pub count: u32,
    ghost some: { 1 ≤ count },
    ghost few: { count ≤ 8 },
}

impl<R, G> Clone for Workers<'_, R, G> {
    fn clone(&self) -> Result<Self, AllocError> {
        Ok(*self)
    }
}

impl<R, G> Copy for Workers<'_, R, G> {}
