//! The reads of a network.
ghost use Rattle.std.specs.Prelude.{◌≡◌, ◌+◌, ◌<◌, ◌≤◌, ℕ, [], ◌∷◌, ◌++◌, IfNone, List, OnOk, Some, is_some, length, slice_get, vec_capacity, vec_len};
ghost use Rattle.pf_entry.specs.Ops.{Sector};
ghost use Rattle.pf_group_network.specs.Keeping.{with_answer_in};
ghost use Rattle.pf_group_network.specs.Unread.{ReadingsHaveRoom, IsNumberAmong, StaysAmong, reading_answer, without_answer_in};
ghost use Rattle.pf_group_network.specs.declared.kept.Reading.TheVariants.{Answered, Waiting};

use crate::Reading;
use crate::keeping::put;
use pf_base::{Data, NoMemory};
use std::alloc::Global;
use std::marker::Model;

/// The reads, by their numbers. Those whose answers can be taken out are found without going through the others.
#[derive(Drop)]
pub struct ReadTable {
    list: Vec<Reading>,
    /// The reads whose answers can be taken out, in the order of the answers. One whose answer was taken out stays only before another.
    unread: Vec<u64>,
}

impl Model for ReadTable {
    ghost use Rattle.std.specs.Prelude.{◌-◌, vec_capacity, vec_len};
    ghost use Rattle.pf_group_network.specs.Unread.{AreListed, ReadingsAre, free_in};

    ghost Value = { ReadingsAre };

    ghost view = { λ r. record {
      items = r.list.items;
      places = vec_capacity r.list - vec_len r.list;
      free = free_in r.list.items (vec_len r.unread) (vec_capacity r.unread);
    } };

    ghost invariant = { λ r. AreListed r.list.items r.unread.items (vec_len r.unread) (vec_capacity r.unread) };
}

/// Whether the read of this number has an answer that can be taken out.
fn has_answer_at(list: &[Reading], number: u64) -> bool
    ensures { result ≡ is_some (reading_answer (slice_get list.now number)) }
{
    match list.get(number as usize) {
        Some(reading) => reading.has_answer(),
        None => false,
    }
}

/// Forgets numbers at the end whose answers were taken out.
fn forget_taken(list: &[Reading], unread: &mut Vec<u64>)
    ensures among { (number : ℕ) (bytes : List Sector) → slice_get list.now number ≡ Some (Answered bytes)
        → StaysAmong unread.old.items unread.new.items number }
    ensures len { vec_len unread.new ≤ vec_len unread.old }
    ensures capacity { vec_capacity unread.old ≤ vec_capacity unread.new }
{
    while let Some(number) = unread.pop() {
        if has_answer_at(list, number) {
            put(unread, number);
            return;
        }
    }
}

impl ReadTable {
    /// No reads.
    pub fn new(alloc: Global) -> ReadTable
        ensures { result.items ≡ [] }
    {
        ReadTable {
            list: Vec::new(alloc),
            unread: Vec::new(alloc),
        }
    }

    /// How many reads were taken up.
    pub(crate) fn count(&self) -> usize
        ensures { result ≡ length self.now.items }
    {
        self.list.len()
    }

    /// Takes the room for one more, and for its answer. The one error is `NoMemory` (1).
    pub(crate) fn reserve(&mut self) -> Result<(), NoMemory>
        ensures same { self.new.items ≡ self.old.items }
        ensures room { OnOk result (ReadingsHaveRoom self.new) }
    {
        let count = self.list.len();
        self.list.reserve(1)?;
        self.unread.reserve(count + 1)?;
        Ok(())
    }

    /// One more read waits. It takes no memory.
    pub(crate) fn push(&mut self)
        requires { ReadingsHaveRoom self.old }
        ensures { self.new.items ≡ self.old.items ++ Waiting ∷ [] }
    {
        put(&mut self.list, Reading::Waiting);
    }

    /// The answer of a read; one that was answered keeps its answer. It takes no memory.
    pub(crate) fn answer(&mut self, number: u64, sectors: Data)
        requires { number < length self.old.items }
        ensures { self.new.items ≡ with_answer_in self.old.items number sectors (slice_get self.old.items number) }
    {
        let place = number as usize;
        if !self.list[place].waits() {
            return;
        }
        self.list[place] = Reading::Answered(sectors);
        put(&mut self.unread, number);
    }

    /// Takes the answer of a read out, where one is there. It takes no memory.
    pub(crate) fn take(&mut self, number: u64) -> Option<Data>
        ensures answer { result ≡ reading_answer (slice_get self.old.items number) }
        ensures left { self.new.items ≡ without_answer_in self.old.items number (slice_get self.old.items number) }
        ensures none { IfNone result (self.new ≡ self.old) }
    {
        if !has_answer_at(&self.list, number) {
            return None;
        }
        let answer = self.list[number as usize].take();
        forget_taken(&self.list, &mut self.unread);
        answer
    }

    /// The reads whose answers can be taken out, and maybe others.
    pub fn unread(&self) -> &[u64]
        ensures { (number : ℕ) (bytes : List Sector) → slice_get self.now.items number ≡ Some (Answered bytes) → IsNumberAmong result.now number }
    {
        &self.unread
    }
}
