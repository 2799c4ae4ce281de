//! What a format has room for.
ghost use Rattle.std.specs.Prelude.{◌≡◌, ◌==◌, if◌then◌else◌};
ghost use Rattle.pf_entry.specs.Canonical.{first_format, second_format};

use std::marker::Model;

/// How many slots an entry may name, how far above a checkpoint a log may reach, and whether there are marks.
#[derive(Clone, Copy, Debug, PartialEq, Eq)]
pub struct Bounds {
    names: usize,
    window: u64,
    marks: u8,
}

impl Model for Bounds {
    ghost use Rattle.pf_entry.specs.Canonical.{Bounds as Room};

    ghost Value = { Room };

    ghost view = { λ b. record { names = b.names; window = b.window; marks = b.marks } };

    ghost inverse = { λ room. record { names = room.names; window = room.window; marks = room.marks } };
}

impl Bounds {
    /// The first format: at most 2 names, a log of at most 512 slots, and no marks.
    #[tactic(auto, unfolding(pf_entry::specs::Canonical::first_format))]
    pub fn first_format() -> Bounds
        ensures { result ≡ first_format }
    {
        Bounds {
            names: 2,
            window: 512,
            marks: 0,
        }
    }

    /// The second format, which packets have too: at most 16 names, a log of at most 4,096 slots, and marks.
    #[tactic(auto, unfolding(pf_entry::specs::Canonical::second_format))]
    pub fn second_format() -> Bounds
        ensures { result ≡ second_format }
    {
        Bounds {
            names: 16,
            window: 4096,
            marks: 1,
        }
    }

    /// The bounds of the format of this number: the first for 1, and the second for any other.
    pub(crate) fn of_format(format: u8) -> Bounds
        ensures { result ≡ (if format == 1 then first_format else second_format) }
    {
        if format == 1 {
            Bounds::first_format()
        } else {
            Bounds::second_format()
        }
    }

    /// The most slots that an entry names.
    pub fn names(&self) -> usize
        ensures { result ≡ self.now.names }
    {
        self.names
    }

    /// The most slots from a checkpoint up to the end of a log above it.
    pub fn window(&self) -> u64
        ensures { result ≡ self.now.window }
    {
        self.window
    }

    /// Whether there may be marks, and names of the whole chunk.
    pub(crate) fn has_marks(&self) -> bool
        ensures { result ≡ (self.now.marks == 1) }
    {
        self.marks == 1
    }
}
