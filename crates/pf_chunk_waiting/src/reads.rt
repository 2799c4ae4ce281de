//! The reads that wait, each found by its number.
ghost use Rattle.std.specs.Prelude.{◌≡◌, ◌<◌, ◌++◌, ◌∷◌, [], IfOk, IsTrue, OnOk, true};
ghost use Rattle.pf_entry.specs.Tables.{ascends};
ghost use Rattle.pf_chunk_waiting.specs.Waiters.{AreChosen, are_in_terms, waiting_numbers, without_read};

use crate::places::{
    ReadPlace, all_reads, are_in_terms, leave, make_way, place_of, reads_among, sweep,
};
use crate::waiting::{Terms, Waiting, are_same, is_in_term};
use pf_base::NoMemory;
use std::alloc::Global;
use std::marker::Model;

/// The reads that wait, in the order of their numbers. What concerns a few of them takes no step for each of the others.
#[derive(Drop)]
pub struct WaitingReads {
    /// One that waits no more stays in its place until the places run out.
    places: Vec<ReadPlace>,
    /// In which terms the servers ran as the reads were gone through.
    terms: Terms,
    /// Whether each read was taken up in the term of its server.
    in_terms: bool,
}

impl Model for WaitingReads {
    ghost use Rattle.std.specs.Prelude.{◌-◌, vec_capacity, vec_len};
    ghost use Rattle.pf_chunk_waiting.specs.Waiters.{WaitingAre};
    ghost use Rattle.pf_chunk_waiting.specs.Places.{AreKept, those_waiting};

    ghost Value = { WaitingAre };

    ghost view = { λ w. record { items = those_waiting w.places.items; places = vec_capacity w.places - vec_len w.places } };

    ghost invariant = { λ w. AreKept w.places.items w.terms w.in_terms };
}

impl WaitingReads {
    /// None waits.
    pub fn new(alloc: Global) -> WaitingReads
        ensures items { result.items ≡ [] }
    {
        WaitingReads {
            places: Vec::new(alloc),
            terms: [None, None, None],
            in_terms: true,
        }
    }

    /// Takes the room for one more. Where there is none, the places of reads that wait no more are freed first, and there is room for as many
    /// again as wait then: so that takes a constant number of steps for each read in the mean. The one error is `NoMemory` (1).
    pub fn reserve(&mut self) -> Result<(), NoMemory>
        ensures items { self.new.items ≡ self.old.items }
        ensures room { OnOk result (0 < self.new.places) }
    {
        if self.places.len() == self.places.capacity() {
            sweep(&mut self.places);
            self.places.reserve(self.places.len() + 1)?;
        }
        Ok(())
    }

    /// One more waits. It takes no memory.
    pub fn push(&mut self, one: Waiting)
        requires { 0 < self.old.places }
        ensures { self.new.items ≡ self.old.items ++ one ∷ [] }
    {
        make_way(&mut self.places, one.number);
        self.in_terms = self.in_terms && is_in_term(&self.terms, &one);
        let _ = self.places.push(ReadPlace {
            read: one,
            waits: true,
        });
    }

    /// The read of this number waits no more. It takes no memory.
    pub fn forget(&mut self, number: u64)
        requires { ascends (waiting_numbers self.old.items) ≡ true }
        ensures { self.new.items ≡ without_read number self.old.items }
    {
        let Some(place) = place_of(&self.places, number) else {
            return;
        };
        leave(&mut self.places, place, number);
    }

    /// Whether the servers run in these terms, as they did when the reads were gone through, and each read is in its server's term.
    fn are_in(&self, terms: &Terms) -> bool
        ensures { IsTrue result → are_in_terms terms.now self.now.items ≡ true }
    {
        self.in_terms && are_same(&self.terms, terms)
    }

    /// The reads of which something may be to tell, in their order: where the servers run in these terms, as they did when the reads were
    /// gone through, and each read is in its server's term, those that have one of these numbers; else all. The one error is `NoMemory`
    /// (1). Where there are none, no memory is taken.
    pub fn choose(&self, terms: &Terms, numbers: &[u64]) -> Result<Vec<Waiting>, NoMemory>
        requires { ascends (waiting_numbers self.now.items) ≡ true }
        ensures { IfOk result (λ chosen. AreChosen terms.now numbers.now self.now.items chosen.items) }
    {
        let alloc = *self.places.allocator();
        if self.are_in(terms) {
            reads_among(alloc, &self.places, numbers)
        } else {
            all_reads(alloc, &self.places)
        }
    }

    /// Notes the terms in which the servers run once the reads were gone through. It goes through them only where the terms are others.
    pub fn note_terms(&mut self, terms: Terms)
        ensures { self.new ≡ self.old }
    {
        if !self.are_in(&terms) {
            self.in_terms = are_in_terms(&terms, &self.places);
            self.terms = terms;
        }
    }
}
