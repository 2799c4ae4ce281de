//! The answers of reads.
ghost use Rattle.std.specs.Prelude.{◌≡◌, ◌+◌, ◌-◌, ◌≤◌, ◌<◌, [], ◌∷◌, ◌++◌, IfNone, IfSome, IsTrue, OnErr, OnOk, length, slice_range};
ghost use Rattle.std.specs.VecDeque.{deque_capacity, deque_len};
ghost use Rattle.pf_base.specs.Span.{fits_in};

use pf_base::{NoMemory, Range, Sectors};
use pf_server_tables::{CopyRoom, SectorTable};
use std::alloc::Global;
use std::collections::VecDeque;
use std::marker::Model;

/// The answers of reads, in the order in which they were given, and the memory of answers to come. A read takes the memory
/// of its answer as it is confirmed.
#[derive(Drop)]
pub struct Replies {
    /// Each for eight sectors.
    rooms: Vec<CopyRoom>,
    answers: VecDeque<(u64, Sectors)>,
}

impl Model for Replies {
    ghost use Rattle.std.specs.Prelude.{length};
    ghost use Rattle.std.specs.VecDeque.{deque_capacity, deque_len};
    ghost use Rattle.pf_server_memory.specs.Replying.{Replying, replying_code, HasRooms};

    ghost Value = { Replying };

    ghost coded = { replying_code };

    ghost view = { λ a. record { rooms = length a.rooms.items; answers = a.answers.items } };

    ghost invariant = { λ a. HasRooms a.rooms.items (deque_len a.answers) (deque_capacity a.answers) };
}

impl Replies {
    /// No answers, and no room for any.
    pub fn new(alloc: Global) -> Replies
        ensures { result ≡ record { rooms = 0; answers = [] } }
    {
        Replies {
            rooms: Vec::new(alloc),
            answers: VecDeque::new(alloc),
        }
    }

    /// For how many answers more there is memory.
    pub fn rooms(&self) -> usize
        ensures { result ≡ self.now.rooms }
    {
        self.rooms.len()
    }

    /// Takes memory for one answer more. `NoMemory` (1) leaves the room as it was.
    pub fn reserve(&mut self, alloc: Global) -> Result<(), NoMemory>
        ensures ok { OnOk result (self.new ≡ record self.old { rooms = self.old.rooms + 1 }) }
        ensures err { OnErr result (self.new ≡ self.old) }
    {
        self.rooms.reserve(1)?;
        self.answers.reserve(self.rooms.len() + 1)?;
        let room = CopyRoom::new(alloc, 8)?;
        self.rooms.push(room)?;
        Ok(())
    }

    /// Answers a read of this number with the sectors of its range, 1 to 8 of them.
    pub fn answer(&mut self, number: u64, range: Range, table: &SectorTable)
        requires room { 1 ≤ self.old.rooms }
        requires count { range.count ≤ 8 }
        requires fits { IsTrue (fits_in range (length table.now)) }
        ensures { self.new ≡ record {
          rooms = self.old.rooms - 1;
          answers = self.old.answers
              ++ (number, slice_range table.now range.first (range.first + range.count)) ∷ [];
        } }
    {
        if let Some(room) = self.rooms.pop() {
            let sectors = fill(room, range, table);
            put_last(&mut self.answers, (number, sectors));
        }
    }

    /// Takes out the first answer, `None` exactly where none is left.
    pub fn take(&mut self) -> Option<(u64, Sectors)>
        ensures none { IfNone result ((self.old.answers ≡ []) × (self.new ≡ self.old)) }
        ensures first { IfSome result (λ answer. (self.old.answers ≡ answer ∷ self.new.answers) × (self.new.rooms ≡ self.old.rooms)) }
    {
        self.answers.pop_front()
    }
}

/// The sectors of the range, in the room.
fn fill(room: CopyRoom, range: Range, table: &SectorTable) -> Sectors
    requires room { 8 ≤ room }
    requires count { range.count ≤ 8 }
    requires fits { IsTrue (fits_in range (length table.now)) }
    ensures { result ≡ slice_range table.now range.first (range.first + range.count) }
{
    table.fill(range, room)
}

/// Puts the answer behind the others, where there is room for it.
fn put_last(answers: &mut VecDeque<(u64, Sectors)>, answer: (u64, Sectors))
    requires { deque_len answers.old < deque_capacity answers.old }
    ensures items { answers.new.items ≡ answers.old.items ++ answer ∷ [] }
    ensures len { deque_len answers.new ≡ deque_len answers.old + 1 }
    ensures capacity { deque_capacity answers.old ≤ deque_capacity answers.new }
{
    let _ = answers.push_back(answer);
}
