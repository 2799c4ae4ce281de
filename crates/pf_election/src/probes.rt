//! Reads at a leader that has to find out whether it still leads.
ghost use Rattle.std.specs.Prelude.{ℕ, ◌≡◌, ◌<◌, ◌≤◌, ◌++◌, ◌∷◌, [], ◌&&◌, IfNone, IfSome, MatchOption, IsTrue, OnErr, OnOk, false, length, map};
ghost use Rattle.std.specs.List.{list_all};
ghost use Rattle.pf_entry.specs.Sets as set;
ghost use Rattle.pf_holes.specs.SlotSets.{SlotsAreRising};
ghost use Rattle.pf_election.specs.Reads.{IsReadAt, IsLeastPlace, IsLeastNumber, IsLower, ReadIsTaken, NonePasses, confirm_by_number, confirmed_in, is_above, is_read_ready, is_unconfirmed, read_numbers};

use pf_base::{NoMemory, Range};
use pf_entry::Slots;
use pf_holes::SlotSet;
use std::alloc::Global;
use std::collections::VecDeque;
use std::marker::Model;

/// A read that has not been answered.
#[derive(Drop)]
pub struct ProbedRead {
    pub number: u64,
    pub range: Range,
    /// The slots that were committed, but not yet applied, when it was asked.
    pub named: Slots,
    /// Whether another server has answered a probe that was sent for it.
    pub confirmed: bool,
}

/// The reads of a leader that wait for an answer, in the order in which they were asked.
///
/// A read is answered once another server has told that it knows of no later leader (Raft: reads by an exchange of
/// messages), and what was committed before the read is applied.
#[derive(Drop)]
pub struct Probes {
    reads: VecDeque<ProbedRead>,
    /// How many of them are confirmed.
    confirmed: usize,
    /// Whether each was given a greater number than the one before it.
    in_order: bool,
}

impl Model for Probes {
    ghost use Rattle.std.specs.Prelude.{List};
    ghost use Rattle.std.specs.Coded.{coded_list};
    ghost use Rattle.pf_election.specs.declared.probes.ProbedRead.{ProbedRead};
    ghost use Rattle.pf_election.specs.Reads.{AreKept, read_code};

    ghost Value = { List ProbedRead };

    ghost coded = { coded_list read_code };

    ghost view = { λ a. a.reads.items };

    ghost invariant = { λ a. AreKept a.reads.items a.confirmed a.in_order };
}

impl Probes {
    /// No reads.
    pub fn new(alloc: Global) -> Probes
        ensures { result ≡ [] }
    {
        Probes {
            reads: VecDeque::new(alloc),
            confirmed: 0,
            in_order: true,
        }
    }

    /// How many reads there are.
    pub fn len(&self) -> usize
        ensures { result ≡ length self.now }
    {
        self.reads.len()
    }

    /// The read at this place, in the order in which they were asked.
    pub fn at(&self, place: usize) -> &ProbedRead
        requires { place < length self.now }
        ensures { IsReadAt self.now place result.now }
    {
        &self.reads[place]
    }

    /// At most so many reads are confirmed once those of one more number are.
    pub fn most_confirmed(&self) -> usize
        ensures { (number : ℕ) → confirmed_in (map (confirm_by_number number) self.now) ≤ result }
    {
        let all = self.reads.len();
        if self.in_order {
            return all.min(self.confirmed + 1);
        }
        all
    }

    /// A read of this number and range that waits for a probe and for the slots that it names. `NoMemory` (1) leaves
    /// the reads as they were.
    pub fn ask(&mut self, number: u64, range: Range, named: Slots) -> Result<(), NoMemory>
        ensures ok { OnOk result (self.new ≡ self.old ++ record { number = number; range = range; named = named; confirmed = false } ∷ []) }
        ensures err { OnErr result (self.new ≡ self.old) }
    {
        let in_order = self.in_order && is_above_all(&self.reads, number);
        self.reads.push_back(ProbedRead {
            number,
            range,
            named,
            confirmed: false,
        })?;
        self.in_order = in_order;
        Ok(())
    }

    /// Another server has answered a probe for the read of this number. Where the numbers are in order, the read is found in a number
    /// of steps that grows as the logarithm of how many wait.
    pub fn confirm(&mut self, number: u64)
        ensures { self.new ≡ map (confirm_by_number number) self.old }
    {
        if !self.in_order {
            self.confirm_each(number);
            return;
        }
        if let Ok(place) = self.reads.binary_search_by_key(&number, |read| read.number) {
            if !self.reads[place].confirmed {
                self.reads[place].confirmed = true;
                self.confirmed += 1;
            }
        }
    }

    /// Goes through all the reads, and confirms each of this number.
    fn confirm_each(&mut self, number: u64)
        ensures { self.new ≡ map (confirm_by_number number) self.old }
    {
        for place in 0..self.reads.len() {
            if self.reads[place].number == number {
                if !self.reads[place].confirmed {
                    self.reads[place].confirmed = true;
                    self.confirmed += 1;
                }
            }
        }
    }

    /// Takes out the least read that is confirmed and whose named slots are applied, and tells its number and range.
    /// `None` exactly where there is none; the reads are then the same. Where none is confirmed, it goes through none.
    pub fn take_ready(&mut self, applied: &SlotSet) -> Option<(u64, Range)>
        ensures least { MatchOption result (NonePasses (is_read_ready (set.contains applied.now.slots)) self.old)
            (λ r. ReadIsTaken (is_read_ready (set.contains applied.now.slots)) self.old r.0 r.1 self.new) }
        ensures same { IfNone result (self.new ≡ self.old) }
    {
        if self.confirmed == 0 {
            return None;
        }
        let place = least_ready(&self.reads, applied, self.in_order)?;
        let read = self.reads.remove(place)?;
        self.confirmed -= 1;
        Some((read.number, read.range))
    }

    /// The least number of a read that is not confirmed, above `after` where it is given. `None` exactly where there
    /// is none.
    pub fn unconfirmed(&self, after: Option<u64>) -> Option<u64>
        ensures { MatchOption result (NonePasses (is_unconfirmed after) self.now) (IsLeastNumber (is_unconfirmed after) self.now) }
    {
        let place = least_unconfirmed(&self.reads, after)?;
        Some(self.reads[place].number)
    }
}

/// Whether the number is greater than that of the last read, if there is one.
fn is_above_all(reads: &VecDeque<ProbedRead>, number: u64) -> bool
    ensures { IsTrue result → SlotsAreRising (read_numbers reads.now.items) → SlotsAreRising (read_numbers reads.now.items ++ number ∷ []) }
{
    let count = reads.len();
    count == 0 || reads[count - 1].number < number
}

/// The place of the least read that is ready. Where the reads are in the order of their numbers, it is the first.
fn least_ready(reads: &VecDeque<ProbedRead>, applied: &SlotSet, in_order: bool) -> Option<usize>
    requires { IsTrue in_order → SlotsAreRising (read_numbers reads.now.items) }
    ensures { IsLeastPlace (is_read_ready (set.contains applied.now.slots)) reads.now.items (length reads.now.items) result }
{
    let mut least = None;
    for place in 0..reads.len() {
        if is_ready(&reads[place], applied) && is_lower(reads, place, least) {
            if in_order {
                return Some(place);
            }
            least = Some(place);
        }
    }
    least
}

/// The place of the least read that is not confirmed, above `after` where it is given.
fn least_unconfirmed(reads: &VecDeque<ProbedRead>, after: Option<u64>) -> Option<usize>
    ensures { IsLeastPlace (is_unconfirmed after) reads.now.items (length reads.now.items) result }
{
    let mut least = None;
    for place in 0..reads.len() {
        if is_unconfirmed(&reads[place], after) && is_lower(reads, place, least) {
            least = Some(place);
        }
    }
    least
}

/// Whether the read is confirmed, and every slot that it names is applied.
fn is_ready(read: &ProbedRead, applied: &SlotSet) -> bool
    ensures { result ≡ is_read_ready (set.contains applied.now.slots) read.now }
{
    read.confirmed && are_applied(read.named.as_slice(), applied)
}

fn are_applied(slots: &[u64], applied: &SlotSet) -> bool
    ensures { result ≡ list_all (set.contains applied.now.slots) slots.now }
{
    slots.iter().all(|slot| applied.has(*slot))
}

fn is_unconfirmed(read: &ProbedRead, after: Option<u64>) -> bool
    ensures { result ≡ is_unconfirmed after read.now }
{
    !read.confirmed
        && match after {
            Some(after) => after < read.number,
            None => true,
        }
}

/// Whether the read at `place` has a lower number than the least so far.
fn is_lower(reads: &VecDeque<ProbedRead>, place: usize, least: Option<usize>) -> bool
    requires place { place < length reads.now.items }
    requires least { IfSome least (λ k. k < length reads.now.items) }
    ensures { IsLower reads.now.items place least result }
{
    match least {
        Some(k) => reads[place].number < reads[k].number,
        None => true,
    }
}
