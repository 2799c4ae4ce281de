//! Where a volume's sectors lie.
ghost use Rattle.std.specs.Prelude.{◌≡◌};

use std::marker::Model;

/// A sector of a chunk.
#[derive(Clone, Copy, Debug, PartialEq, Eq)]
pub struct Place {
    pub chunk: u8,
    pub sector: u32,
}

/// A list of places.
#[derive(Drop)]
pub struct Places {
    items: Vec<Place>,
}

impl Model for Places {
    ghost use Rattle.std.specs.Prelude.{List};
    ghost use Rattle.pf_volume.specs.declared.places.Place.{Place as PlaceIs};

    ghost Value = { List PlaceIs };

    ghost view = { λ a. a.items.items };
}

impl Places {
    /// The list of these places.
    pub fn new(items: Vec<Place>) -> Places
        ensures { result ≡ items.items }
    {
        Places { items }
    }

    /// The places in their order.
    pub fn as_slice(&self) -> &[Place]
        ensures { result.now ≡ self.now }
    {
        &self.items
    }

    /// The places in their order.
    pub fn into_vec(self) -> Vec<Place>
        ensures { result.items ≡ self }
    {
        let Places { items } = self;
        items
    }
}
