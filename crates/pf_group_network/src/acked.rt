//! The slots that were acknowledged to hosts.
ghost use Rattle.std.specs.Prelude.{◌≡◌, ◌++◌, ◌∷◌, ◌==◌, ◌&&◌, [], OnOk};
ghost use Rattle.std.specs.List.{list_any};
ghost use Rattle.pf_group_network.specs.AckedSlots.{AckedHasRoom, IsFoundIn};

use crate::Acked;
use pf_base::{NoMemory, Slot, Term};
use std::alloc::Global;
use std::collections::HashSet;

/// The slots that were acknowledged, in order. Whether one is among them is found without going through the others. It is not trimmed with
/// the log, so a repeated acknowledgement tells no host twice.
#[derive(Drop)]
pub struct AckedList {
    pub list: Vec<Acked>,
    known: HashSet<(Term, Slot)>,
    ghost found: { IsFoundIn known list.items },
}

impl AckedList {
    /// None was acknowledged.
    pub fn new(alloc: Global) -> AckedList
        ensures { result.list.items ≡ [] }
    {
        AckedList {
            list: Vec::new(alloc),
            known: HashSet::new(alloc),
        }
    }

    /// Takes the room for one more. The one error is `NoMemory` (1).
    pub fn reserve(&mut self) -> Result<(), NoMemory>
        ensures same { self.new.list.items ≡ self.old.list.items }
        ensures room { OnOk result (AckedHasRoom self.new.list self.new.known) }
    {
        self.list.reserve(1)?;
        self.known.reserve(1)?;
        Ok(())
    }

    /// One more was acknowledged. It takes no memory.
    pub fn push(&mut self, acked: Acked)
        requires { AckedHasRoom self.old.list self.old.known }
        ensures { self.new.list.items ≡ self.old.list.items ++ acked ∷ [] }
    {
        let _ = self.list.push(acked);
        let _ = self.known.insert((acked.term, acked.slot));
    }

    /// Whether the slot was acknowledged in this term.
    pub fn has(&self, term: Term, slot: Slot) -> bool
        ensures { result ≡ list_any (λ a. a.term == term && a.slot == slot) self.now.list.items }
    {
        self.known.contains(&(term, slot))
    }
}
