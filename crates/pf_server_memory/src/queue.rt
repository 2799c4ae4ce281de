//! Packets that wait to be taken.
ghost use Rattle.std.specs.Prelude.{◌≡◌, ◌++◌, ◌∷◌, [], ℕ, IfNone, IfSome, List, OnOk};
ghost use Rattle.std.specs.Option.{option_to_list};

use pf_base::NoMemory;
use pf_codec::Spelled;
use std::alloc::Global;
use std::collections::VecDeque;
use std::marker::Model;
use std::mem;

/// Spelled packets in order. The first one stands here and in no list, so it takes no memory: most steps send one.
#[derive(Drop)]
pub struct PacketQueue {
    /// There is one unless there is none at all.
    first: Option<Spelled>,
    rest: VecDeque<Spelled>,
}

impl Model for PacketQueue {
    ghost use Rattle.std.specs.Prelude.{◌≡◌, ◌++◌, [], ℕ, List, None};
    ghost use Rattle.std.specs.Option.{option_to_list};

    ghost Value = { List (List ℕ) };

    ghost view = { λ a. option_to_list a.first ++ a.rest.items };

    ghost invariant = { λ a. a.first ≡ None → a.rest.items ≡ [] };
}

impl PacketQueue {
    /// No packet.
    pub fn new(alloc: Global) -> PacketQueue
        ensures { result ≡ [] }
    {
        PacketQueue {
            first: None,
            rest: VecDeque::new(alloc),
        }
    }

    /// Puts a packet behind the others. `NoMemory` (1) where there is no place for it.
    pub fn push(&mut self, bytes: Spelled) -> Result<(), NoMemory>
        ensures { OnOk result (self.new ≡ self.old ++ bytes ∷ []) }
    {
        if self.first.is_none() {
            self.first = Some(bytes);
            return Ok(());
        }
        Ok(self.rest.push_back(bytes)?)
    }

    /// The last packet, `None` exactly where there is none.
    pub fn last(&self) -> Option<&Spelled>
        ensures none { IfNone result (self.now ≡ []) }
        ensures last { IfSome result (λ bytes. (before : List (List ℕ)) (last : List ℕ) → self.now ≡ before ++ last ∷ [] → bytes.now ≡ last) }
    {
        match self.rest.back() {
            Some(last) => Some(last),
            None => self.first.as_ref(),
        }
    }

    /// Takes out the first packet, `None` exactly where there is none.
    pub fn take(&mut self) -> Option<Spelled>
        ensures first { self.old ≡ option_to_list result ++ self.new }
        ensures none { IfNone result ((self.old ≡ []) × (self.new ≡ [])) }
    {
        let next = self.rest.pop_front();
        mem::replace(&mut self.first, next)
    }
}
