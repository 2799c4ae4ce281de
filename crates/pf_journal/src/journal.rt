//! How far a journal is decided.
ghost use Rattle.std.specs.Prelude.{◌≡◌, ◌+◌, ◌<◌, MatchResult};

use std::marker::Model;
use thiserror::Error;

/// How many positions a journal has.
const POSITIONS: u32 = 256;

/// All 256 positions of the journal are decided.
#[derive(Clone, Copy, Debug, PartialEq, Eq, Error)]
#[error("journal full")]
pub struct JournalFull;

impl JournalFull {
    /// The number of this refusal.
    pub fn number(&self) -> u32
        ensures { result ≡ 90 }
    {
        90
    }
}

/// The count of positions that are decided, from position 0 on: at most 256.
#[derive(Clone, Copy, Debug, PartialEq, Eq)]
pub struct Journal {
    decided: u32,
}

impl Model for Journal {
    ghost use Rattle.std.specs.Prelude.{ℕ, ◌≤◌};

    ghost Value = { ℕ };

    ghost view = { λ j. j.decided };

    ghost invariant = { λ j. j.decided ≤ 256 };

    ghost inverse = { λ decided. record { decided = decided } };
}

impl Journal {
    /// A journal in which no position is decided.
    pub fn new() -> Journal
        ensures { result ≡ 0 }
    {
        Journal { decided: 0 }
    }

    /// The position that is to be decided next. `JournalFull` (90) exactly where all 256 are decided.
    pub fn next(&self) -> Result<u32, JournalFull>
        ensures { MatchResult result (λ position. (self.now < 256) × (position ≡ self.now)) (λ _. self.now ≡ 256) }
    {
        if self.decided == POSITIONS {
            return Err(JournalFull);
        }
        Ok(self.decided)
    }

    /// The next position is decided now.
    pub fn advance(&mut self)
        requires { self.old < 256 }
        ensures { self.new ≡ self.old + 1 }
    {
        self.decided += 1;
    }
}
