//! Which group serves each chunk.
ghost use Rattle.std.specs.Prelude.{◌≡◌, ◌↔◌, ◌<◌, ◌≤◌, IfSome, IsSome, IsTrue, None, Some, length, slice_get};
ghost use Rattle.std.specs.Option.{option_map};
ghost use Rattle.pf_move.specs.Routes.{AreFirst, IsMoving, Switches, home_of_chunk, group_serving, routes_switched};

use std::marker::Model;

/// The most chunks of a volume.
const MOST_CHUNKS: usize = 8;

/// The group that serves a chunk, and the epoch: how often the chunk has moved. Groups are numbered in the order in which they are
/// made.
#[derive(Clone, Copy, Debug, PartialEq, Eq)]
pub struct Route {
    pub group: u8,
    pub epoch: u64,
}

/// A chunk that is moving, and the group that is to serve it.
#[derive(Clone, Copy, Debug, PartialEq, Eq)]
pub struct Moving {
    pub chunk: u8,
    pub to: u8,
}

/// The routes of 1 to 8 chunks, of which at most one is moving.
#[derive(Clone, Debug, Drop)]
pub struct Routes {
    /// Those of the chunks come first.
    routes: [Route; MOST_CHUNKS],
    chunks: usize,
    moving: Option<Moving>,
}

impl Model for Routes {
    ghost use Rattle.std.specs.Prelude.{◌≡◌, ◌<◌, ◌≤◌, IfSome, length, take};
    ghost use Rattle.pf_move.specs.Routes.{RoutesIs};

    ghost Value = { RoutesIs };

    ghost view = { λ r. record { routes = take r.chunks r.routes; moving = r.moving } };

    ghost invariant = { λ r. (r.chunks ≤ 8) × (length r.routes ≡ 8) × IfSome r.moving (λ moving. moving.chunk < r.chunks) };
}

impl Routes {
    /// The routes of `chunks` chunks, 1 to 8: each chunk begins with the group of its own number, in epoch 0.
    pub fn new(chunks: u32) -> Routes
        requires some { 1 ≤ chunks }
        requires few { chunks ≤ 8 }
        ensures { AreFirst chunks result }
    {
        let routes = [0, 1, 2, 3, 4, 5, 6, 7].map(|group| Route { group, epoch: 0 });
        Routes {
            routes,
            chunks: chunks as usize,
            moving: None,
        }
    }

    /// Where asks for a chunk go. `None` exactly while the chunk is moving: they wait.
    pub fn route(&self, chunk: u8) -> Option<Route>
        requires { chunk < length self.now.routes }
        ensures moving { (result ≡ None) ↔ IsMoving self.now chunk }
        ensures route { IfSome result (λ route. slice_get self.now.routes chunk ≡ Some route) }
        ensures served { option_map (λ route. route.group) result ≡ group_serving self.now chunk }
    {
        if self.is_moving(chunk) {
            return None;
        }
        Some(self.last_route(chunk))
    }

    /// The route of a chunk; of one that is moving, its old one.
    pub fn last_route(&self, chunk: u8) -> Route
        requires { chunk < length self.now.routes }
        ensures { slice_get self.now.routes chunk ≡ Some result }
    {
        self.routes[chunk as usize]
    }

    /// The group that has the asks for a chunk: the one that serves it, or is to serve it where the chunk is moving.
    pub fn home(&self, chunk: u8) -> u8
        requires { chunk < length self.now.routes }
        ensures { home_of_chunk self.now chunk ≡ Some result }
    {
        match self.moving {
            Some(moving) if moving.chunk == chunk => moving.to,
            _ => self.last_route(chunk).group,
        }
    }

    fn is_moving(&self, chunk: u8) -> bool
        ensures { IsTrue result ↔ IsMoving self.now chunk }
    {
        match self.moving {
            None => false,
            Some(moving) => moving.chunk == chunk,
        }
    }

    /// The chunk that is moving, and where to.
    pub fn moving(&self) -> Option<Moving>
        ensures is { result ≡ self.now.moving }
        ensures chunk { IfSome result (λ moving. moving.chunk < length self.now.routes) }
    {
        self.moving
    }

    /// Begins to move a chunk to a group.
    pub fn begin(&mut self, chunk: u8, to: u8)
        requires chunk { chunk < length self.old.routes }
        requires none { self.old.moving ≡ None }
        ensures { self.new ≡ record self.old { moving = Some (record { chunk = chunk; to = to }) } }
    {
        self.moving = Some(Moving { chunk, to });
    }

    /// Ends the move: from here on the chunk's new group serves it, in the next epoch, or in epoch 2^64 - 1 for good. All else stays.
    pub fn switch(&mut self)
        requires { IsSome self.old.moving }
        ensures switches { Switches self.old self.new }
        ensures is { self.new ≡ routes_switched self.old }
    {
        if let Some(moving) = self.moving() {
            self.switch_to(moving);
        }
    }

    fn switch_to(&mut self, moving: Moving)
        requires { self.old.moving ≡ Some moving }
        ensures { Switches self.old self.new }
    {
        let route = self.routes[moving.chunk as usize];
        self.routes[moving.chunk as usize] = Route {
            group: moving.to,
            epoch: route.epoch.saturating_add(1),
        };
        self.moving = None;
    }
}
