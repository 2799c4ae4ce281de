//! What happened to a group, with a place for what can't be refused.
ghost use Rattle.std.specs.Prelude.{◌≡◌, ◌+◌, ◌<◌, ◌≤◌, ◌^◌, [], ◌∷◌, ◌++◌, OnErr, OnOk};
ghost use Rattle.pf_group.specs.Applied.{applied_on_each, applies_done};
ghost use Rattle.pf_group.specs.Events.{MayWant};
ghost use Rattle.pf_group.specs.Pasts.{HasRoomForEnd, IsKeepable, PastIsSound, open_after};

use crate::GroupEvent;
use crate::happenings::Happenings;
use pf_base::{NoMemory, ServerId};
use pf_protocol::{Answer, Event, Happening};
use std::mem;

/// The most happenings of a group, the ends of its open claims with them.
const MOST: usize = 4_294_967_296;

/// All that happened to a group, in numbers, and as clauses see it. There is a place for the end of each open claim.
#[derive(Drop)]
pub struct Past {
    pub happenings: Happenings,
    /// How many there are.
    pub count: usize,
    /// At least the number of claims that were neither finished nor given back.
    pub open_ends: usize,
    /// How many jobs were finished, and answered `Done`, on servers 0, 1 and 2.
    pub applied: [u64; 3],
}

/// How many claims may be open after a happening.
fn open_after(ends: usize, happening: &Happening) -> usize
    requires { ends ≤ 2 ^ 32 }
    ensures { result ≡ open_after ends happening.now }
{
    match &happening.event {
        Event::Claim => match &happening.answer {
            Answer::Job(_) => ends + 1,
            _ => ends,
        },
        Event::Finish { .. } | Event::GiveBack { .. } => ends.saturating_sub(1),
        _ => ends,
    }
}

/// Whether it is the end of a job of this server that was answered `Done`.
fn is_applied(happening: &Happening, server: ServerId) -> bool
    ensures { result ≡ applies_done server happening.now.event happening.now.answer }
{
    match (&happening.event, &happening.answer) {
        (Event::Finish { server: at, .. }, Answer::Done) => *at == server,
        _ => false,
    }
}

impl Past {
    /// Nothing has happened.
    pub fn new() -> Past
        ensures none { result.happenings ≡ [] }
        ensures past { PastIsSound result }
    {
        Past {
            happenings: Happenings::none(),
            count: 0,
            open_ends: 0,
            applied: [0; 3],
        }
    }

    /// Whether there is a place for what comes of an event, and for the end of what it claims. An end has its place. `NoMemory` (1) at the
    /// limit of 2^32 happenings.
    pub fn room_for(&self, event: &GroupEvent) -> Result<(), NoMemory>
        requires { PastIsSound self.now }
        ensures room { OnOk result (HasRoomForEnd event.now self.now) }
        ensures full { OnErr result (2 ^ 32 < self.now.count + self.now.open_ends + 2) }
        ensures sure { OnErr result (MayWant event.now) }
    {
        if let GroupEvent::Finish(_) = event {
            return Ok(());
        }
        if self.count + self.open_ends + 2 > MOST {
            return Err(NoMemory);
        }
        Ok(())
    }

    /// How many jobs were applied on each server, with one more happening.
    fn applied_with(&self, happening: &Happening) -> [u64; 3]
        requires { PastIsSound self.now }
        ensures { result ≡ applied_on_each (self.now.happenings ++ happening.now ∷ []) }
    {
        let [zero, one, two] = self.applied;
        [
            zero + u64::from(is_applied(happening, 0)),
            one + u64::from(is_applied(happening, 1)),
            two + u64::from(is_applied(happening, 2)),
        ]
    }

    /// One more has happened. It takes no memory.
    pub fn keep(&mut self, happening: &Happening)
        requires past { PastIsSound self.old }
        requires room { IsKeepable self.old happening.now.event }
        ensures items { self.new.happenings ≡ self.old.happenings ++ happening.now ∷ [] }
        ensures past { PastIsSound self.new }
    {
        self.applied = self.applied_with(happening);
        self.count += 1;
        self.open_ends = open_after(self.open_ends, happening);
        let before = mem::replace(&mut self.happenings, Happenings::none());
        self.happenings = before.then(happening);
    }
}
