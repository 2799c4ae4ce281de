//! What lies behind the turn.
ghost use Rattle.std.specs.Prelude.{◌≡◌, ◌+◌, ◌++◌, ◌<◌, ◌≤◌, ◌^◌, [], length, None, Ok, Some, true, vec_capacity, vec_len, IfOk, IfSome, IsTrue, OnErr, OnOk};
ghost use Rattle.pf_protocol.specs.Answers.{IsLegal, claims_of};
ghost use Rattle.pf_protocol.specs.declared.answers.Answer.TheVariants.{Done};
ghost use Rattle.pf_protocol.specs.declared.events.Event.TheVariants.{Claim, Finish, GiveBack};
ghost use Rattle.pf_group_rounds.specs.pf_group.specs.Going.{WentBy};
ghost use Rattle.pf_group_rounds.specs.pf_group.specs.GroupIs.{state_of};
ghost use Rattle.pf_group_rounds.specs.pf_group.specs.Packets.{least_from};
ghost use Rattle.pf_group_rounds.specs.pf_group.specs.Sound.{IsSound};
ghost use Rattle.pf_shared.specs.Events.{IsSharedStep};
ghost use Rattle.pf_group_rounds.specs.pf_group.specs.Roots.{root_of};
ghost use Rattle.pf_group_rounds.specs.Growing.{Pays};
ghost use Rattle.pf_shared.specs.Since.{happened_since};
ghost use Rattle.pf_shared.specs.Woven.{steps_in, woven};
ghost use Rattle.pf_shared.specs.Moments.{handed_out};
ghost use Rattle.pf_shared.specs.Looks.{HandsOut, read_handed_out};
ghost use Rattle.pf_shared.specs.Hands.{Key, ends_after, hand, hand_of, is_tidy, key};

use crate::{Did, SharedStart};
use pf_base::{Data, Filled, NoMemory};
use pf_disk::Disk;
use pf_entry::Job;
use pf_group_rounds::pf_group::{Group, GroupEvent};
use pf_protocol::Answer;
use pf_turn::{Logged, Stamped};
use std::alloc::Global;

/// A group, and what each turn did. The events themselves stand in the group's history alone.
#[derive(Drop)]
pub struct Behind<D: Disk> {
    pub(crate) group: Group<D>,
    /// The group before its first turn.
    pub(crate) start: SharedStart<D>,
    pub(crate) turns: Vec<Stamped<Did>>,
    /// At least the number of claims that were neither finished nor given back. There is room for an entry of the end of each.
    pub(crate) open_ends: usize,
    pub(crate) alloc: Global,
    ghost begun: { start.history ++ happened_since start group ≡ group.history },
    ghost same_root: { root_of group ≡ root_of start },
    ghost same_told: { group.told ≡ start.told },
    ghost paid: { IsTrue start.told → ∥ Pays start group ∥₁ },
    ghost by: { ∥ WentBy start group ∥₁ },
    ghost none_open: { claims_of [] start.history ≡ [] },
    ghost counted: { steps_in turns.items ≡ length (happened_since start group) },
    ghost tidy: { (k : Key) → is_tidy k None (woven turns.items (happened_since start group)) ≡ true },
    ghost handed: { group.taken ≡ handed_out start.taken (woven turns.items (happened_since start group)) },
    ghost ends: { length (claims_of [] (happened_since start group)) ≤ open_ends },
    ghost room: { vec_len turns + open_ends ≤ vec_capacity turns },
}

impl<D: Disk> Logged<crate::SeatMoment, SharedStart<D>> for Behind<D> {
    ghost log = { λ b. woven b.turns.items (happened_since b.start b.group) };

    ghost root = { λ b. b.start };
}

/// How many claims may be open after one was answered.
fn ends_after(ends: usize, answer: &Answer) -> usize
    requires { ends + 1 < 2 ^ 64 }
    ensures { result ≡ ends_after ends answer.now }
{
    match answer {
        Answer::Job(_) => ends + 1,
        _ => ends,
    }
}

impl<D: Disk + Drop> Behind<D> {
    ghost use Rattle.pf_shared.specs.Behinds.{Acts, ActsAs, BringsBack, HasLooked, Stays, group_in, list_of};

    /// A group, before its first turn. No claim is open in its history.
    pub(crate) fn new(alloc: Global, group: Group<D>) -> Behind<D>
        requires none { claims_of [] group.history ≡ [] }
        ensures list { list_of result ≡ [] }
        ensures group { (result.group ≡ group) × (result.start ≡ group) }
    {
        let start = SharedStart::of(&group);
        Behind {
            group,
            start,
            turns: Vec::new(alloc),
            open_ends: 0,
            alloc,
        }
    }

    /// The group, with all that happened to it.
    pub(crate) fn into_group(self) -> Group<D>
        ensures { result ≡ self.group }
    {
        let Behind {
            group,
            start: _,
            turns: _,
            open_ends: _,
            alloc: _,
        } = self;
        group
    }

    /// The group.
    pub fn group(&self) -> &Group<D>
        ensures { result.now ≡ group_in self.now }
    {
        &self.group
    }

    /// Every law holds of all that happened to the group, and it is a legal history, where its disks tell their content. It does nothing: that
    /// it is so is asked of the proof alone.
    pub(crate) fn laws(&self)
        ensures legal { IsTrue self.now.group.told → IsLegal self.now.group.setup self.now.group.history }
        ensures sound { IsSound self.now.group.setup self.now.group.history }
    {
        self.group.laws();
    }

    /// The least packet from `from` on that is left.
    pub(crate) fn least_from(&self, from: u32) -> Option<u32>
        ensures least { IsTrue self.now.group.told → result ≡ least_from from (state_of self.now.group) }
        ensures few { IfSome result (λ k. (from ≤ k) × (k < 65536)) }
    {
        let k = self.group.left_from(from);
        if k < self.group.packets() {
            Some(k)
        } else {
            None
        }
    }

    /// Makes room for one more entry, and for the end of what it claims.
    fn make_room(&mut self) -> Result<(), NoMemory>
        ensures group { (self.new.group ≡ self.old.group) × (self.new.start ≡ self.old.start) }
        ensures turns { self.new.turns.items ≡ self.old.turns.items }
        ensures ends { self.new.open_ends ≡ self.old.open_ends }
        ensures fits { OnOk result (self.new.open_ends + 2 < 2 ^ 64) }
        ensures room { OnOk result (vec_len self.new.turns + (self.new.open_ends + 2) ≤ vec_capacity self.new.turns) }
    {
        let Some(ends) = self.open_ends.checked_add(2) else {
            return Err(NoMemory);
        };
        self.turns.reserve(ends)?;
        Ok(())
    }

    /// One event, as one more entry of this seat. Where there is no memory for it (`NoMemory`, 1) there is none.
    pub(crate) fn step(
        &mut self,
        alloc: Global,
        seat: u64,
        event: GroupEvent,
    ) -> Result<Answer, NoMemory>
        requires { IsSharedStep event }
        ensures ok { IfOk result (λ answer. ActsAs seat event answer self.old self.new) }
        ensures err { OnErr result (Stays self.old self.new) }
    {
        self.make_room()?;
        let answer = self.group.step(alloc, event)?;
        let _ = self.turns.push(Stamped {
            seat,
            what: Did::Acted,
        });
        Ok(answer)
    }

    /// A claim, as one more entry of this seat. Where there is no memory for it (`NoMemory`, 1) there is none.
    pub(crate) fn claim(&mut self, alloc: Global, seat: u64) -> Result<Answer, NoMemory>
        ensures ok { IfOk result (λ answer. Acts seat Claim answer self.old self.new) }
        ensures err { OnErr result (Stays self.old self.new) }
    {
        self.make_room()?;
        let answer = self.group.step(alloc, GroupEvent::Claim)?;
        self.open_ends = ends_after(self.open_ends, &answer);
        let _ = self.turns.push(Stamped {
            seat,
            what: Did::Acted,
        });
        Ok(answer)
    }

    /// The end of a job that the seat has in hand. It takes no memory.
    pub(crate) fn finish(&mut self, seat: u64, filled: Filled) -> Answer
        requires { BringsBack seat (list_of self.old) filled }
        ensures { Acts seat (Finish filled.server filled.life filled.slot) result self.old self.new }
    {
        let Ok(answer) = self.group.step(self.alloc, GroupEvent::Finish(filled)) else {
            unreachable!()
        };
        self.open_ends -= 1;
        let _ = self.turns.push(Stamped {
            seat,
            what: Did::Acted,
        });
        answer
    }

    /// The return of a job that the seat has in hand. It takes no memory.
    pub(crate) fn give_back(&mut self, seat: u64, job: Job)
        requires { hand_of (key job.server job.life job.slot) None (list_of self.old) ≡ Some (hand seat job.op) }
        ensures { Acts seat (GiveBack job.server job.life job.slot) Done self.old self.new }
    {
        self.group.give_back(job);
        self.open_ends -= 1;
        let _ = self.turns.push(Stamped {
            seat,
            what: Did::Acted,
        });
    }
    /// A look of this seat that tells this, as one more entry. Where there is no memory for it (`NoMemory`, 1), or there was none for
    /// what it tells, there is none.
    pub(crate) fn looked<T: Drop>(
        &mut self,
        seat: u64,
        told: Result<T, NoMemory>,
    ) -> Result<T, NoMemory>
        ensures told { IfOk result (λ it. told ≡ Ok it) }
        ensures ok { OnOk result (HasLooked seat None self.old self.new) }
        ensures err { OnErr result (Stays self.old self.new) }
    {
        let told = told?;
        self.make_room()?;
        let _ = self.turns.push(Stamped {
            seat,
            what: Did::Looked { read: None },
        });
        Ok(told)
    }

    /// Hands out the answer of a read, as one more entry of this seat. Where there is no memory for it (`NoMemory`, 1) there is none.
    pub fn take_read(&mut self, seat: u64, number: u64) -> Result<Option<Data>, NoMemory>
        ensures ok { IfOk result (λ answer. HasLooked seat (read_handed_out number answer) self.old self.new) }
        ensures handed { IfOk result (HandsOut (group_in self.old).told (state_of (group_in self.old)) (group_in self.old).taken number) }
        ensures numbered { OnOk result (IsTrue (group_in self.old).told → length (group_in self.old).taken ≡ (state_of (group_in self.old)).reads) }
        ensures err { OnErr result (Stays self.old self.new) }
    {
        self.make_room()?;
        let answer = self.group.take_read(number);
        let read = answer.is_some().then_some(number);
        let _ = self.turns.push(Stamped {
            seat,
            what: Did::Looked { read },
        });
        Ok(answer)
    }
}
