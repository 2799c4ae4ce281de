//! What happened to a group, for clauses alone.
ghost use Rattle.std.specs.Prelude.{◌≡◌, [], ◌∷◌, ◌++◌};

use pf_protocol::Happening;
use std::marker::Model;
use std::snapshot::Snapshot;

/// The last happening, with all before it.
#[derive(Drop)]
pub enum Chain {
    Nothing,
    Then {
        before: Snapshot<Chain>,
        last: Snapshot<Happening>,
    },
}

/// All that happened to a group, in order. No value of it has bytes: no step reads it, and a vector would hold the op of each submission.
#[derive(Drop)]
pub struct Happenings {
    chain: Snapshot<Chain>,
}

impl Model for Happenings {
    ghost use Rattle.pf_protocol.specs.Histories.{History};

    ghost Value = { History };

    ghost use Rattle.pf_group.specs.Happenings.{happenings_of};

    ghost view = { λ h. happenings_of h.chain.value };
}

impl Happenings {
    /// Nothing has happened.
    pub fn none() -> Happenings
        ensures { result ≡ [] }
    {
        Happenings {
            chain: Snapshot::of(&Chain::Nothing),
        }
    }

    /// One more has happened.
    pub fn then(self, last: &Happening) -> Happenings
        ensures { result ≡ self ++ last.now ∷ [] }
    {
        Happenings {
            chain: Snapshot::of(&Chain::Then {
                before: self.chain,
                last: Snapshot::of(last),
            }),
        }
    }
}
