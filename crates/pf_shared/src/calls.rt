//! The calls, each in one turn.
ghost use Rattle.std.specs.Prelude.{◌≡◌, ◌≢◌, ℕ, ◌+◌, ◌<◌, ◌^◌, [], ◌∷◌, None, true, IfErr, IfOk, OnErr};
ghost use Rattle.pf_protocol.specs.Answers.{claims_of};
ghost use Rattle.pf_protocol.specs.declared.answers.Answer.TheVariants.{Done};
ghost use Rattle.pf_protocol.specs.declared.events.Event.TheVariants.{Claim, Finish, GiveBack};
ghost use Rattle.pf_turn.specs.Lists.{Begins, Every, GrewBy, SameOf, entries_of, longer};
ghost use Rattle.pf_group_rounds.specs.pf_group.specs.Roots.{root_of};
ghost use Rattle.pf_group_rounds.specs.Growing.{HasGrown};
ghost use Rattle.pf_shared.specs.Behinds.{list_of, start_of};
ghost use Rattle.pf_shared.specs.Calls.{Finds, SeatHasClaimed, SeatHasStepped, IsHistory, JobIsTaken, OnJob, SeatSteps};
ghost use Rattle.pf_shared.specs.Events.{IsSharedStep};
ghost use Rattle.pf_shared.specs.Hands.{HasInHand, Key, hand_of, is_tidy, key};
ghost use Rattle.pf_shared.specs.Moments.{handed_out};
ghost use Rattle.pf_shared.specs.Since.{whole_history};
ghost use Rattle.pf_shared.specs.Seats.{IsAlone, IsFirst, IsInTurn, IsSameSeat, IsSeatOf, gone_of, number_of, out_of, root_in, seen_by, splits_of};

use crate::{Behind, GroupSeat, SharedGroup, SharedStart};
use pf_base::{Filled, NoMemory};
use pf_disk::Disk;
use pf_entry::Job;
use pf_group_rounds::pf_group::{Group, GroupEvent};
use pf_protocol::Answer;
use pf_turn::{Turn, TurnLock};
use std::alloc::Global;
use std::sync::Wait;

impl<D: Disk> GroupSeat<D> {
    /// The number that stamps the seat's entries: 0 of the first seat, then 1, 2 and so on in the order of the splits.
    pub fn number(&self) -> u64
        ensures { result ≡ number_of self.now }
    {
        self.seat.number()
    }
}

impl<D: Disk + Drop> SharedGroup<D> {
    /// A group behind a turn, and its first seat. No claim is open in its history, which becomes the root of the lock: the list behind the
    /// turn is what happens from then on. What its calls say of the group's state is said of disks that tell their content. Where memory
    /// runs out (`NoMemory`, 1) the group comes back.
    pub fn new(
        alloc: Global,
        group: Group<D>,
    ) -> Result<(SharedGroup<D>, GroupSeat<D>), (Group<D>, NoMemory)>
        requires none { claims_of [] group.history ≡ [] }
        ensures seat { IfOk result (λ made. IsSeatOf made.0 made.1) }
        ensures first { IfOk result (λ made. IsFirst made.1 × (splits_of made.1 ≡ 0) × (out_of made.1 ≡ 0) × (gone_of made.1 ≡ [])) }
        ensures list { IfOk result (λ made. seen_by made.1 ≡ []) }
        ensures root { IfOk result (λ made. root_in made.0 ≡ group) }
        ensures back { IfErr result (λ back. back.0 ≡ group) }
    {
        let start = SharedStart::of(&group);
        match TurnLock::new(alloc, Behind::new(alloc, group), &start) {
            Ok((lock, seat)) => Ok((SharedGroup { lock }, GroupSeat { seat })),
            Err((behind, NoMemory)) => Err((behind.into_group(), NoMemory)),
        }
    }

    /// A new seat, which has seen what the first seat has and made no entry. Fewer than 2^32 seats come from one first seat. It
    /// takes no memory.
    pub fn split(&self, seat: &mut GroupSeat<D>) -> GroupSeat<D>
        requires seat { IsSeatOf self.now seat.old }
        requires first { IsFirst seat.old × (splits_of seat.old < 2 ^ 32) }
        ensures seat { IsSeatOf self.now seat.new × IsFirst seat.new }
        ensures counts { (splits_of seat.new ≡ splits_of seat.old + 1) × (out_of seat.new ≡ out_of seat.old + 1) × (gone_of seat.new ≡ gone_of seat.old) }
        ensures seen { (seen_by seat.new ≡ seen_by seat.old) × (seen_by result ≡ seen_by seat.old) }
        ensures given { IsSeatOf self.now result × (number_of result ≡ splits_of seat.old + 1) }
        ensures none_made { entries_of (number_of result) (seen_by result) ≡ [] }
    {
        GroupSeat {
            seat: self.lock.split(&mut seat.seat),
        }
    }

    /// Takes in a seat that was split from the first one. The first seat has then seen what either had, and one seat less is out. No
    /// number that was not yet split has an entry.
    pub fn join(&self, seat: &mut GroupSeat<D>, other: GroupSeat<D>)
        requires seat { IsSeatOf self.now seat.old × IsFirst seat.old }
        requires other { IsSeatOf self.now other × (number_of other ≢ 0) }
        ensures seat { IsSeatOf self.now seat.new × IsFirst seat.new }
        ensures counts { (splits_of seat.new ≡ splits_of seat.old) × (out_of seat.new + 1 ≡ out_of seat.old)
            × (gone_of seat.new ≡ number_of other ∷ gone_of seat.old) }
        ensures seen { (seen_by seat.new ≡ longer (seen_by seat.old) (seen_by other)) × Begins (seen_by seat.old) (seen_by seat.new)
            × Begins (seen_by other) (seen_by seat.new) }
        ensures own { entries_of 0 (seen_by seat.new) ≡ entries_of 0 (seen_by seat.old) }
        ensures gone { Every (SameOf (seen_by seat.new) (seen_by seat.old)) (gone_of seat.old) }
        ensures brought { entries_of (number_of other) (seen_by seat.new) ≡ entries_of (number_of other) (seen_by other) }
        ensures strangers { (n : ℕ) → splits_of seat.new < n → entries_of n (seen_by seat.new) ≡ [] }
    {
        let GroupSeat { seat: other } = other;
        self.lock.join(&mut seat.seat, other);
    }

    /// Waits for the seat's turn, and hands out what lies behind it. Its list begins with all that the seat has seen, and has the seat's
    /// own entries and no others of its number. The first seat, where no other is out, finds exactly what it has seen.
    pub fn begin<R: Wait>(&self, rt: &R, seat: &mut GroupSeat<D>) -> Turn<Behind<D>>
        requires { IsSeatOf self.now seat.old }
        ensures seat { IsInTurn self.now seat.new × IsSameSeat seat.old seat.new }
        ensures seen { (seen_by seat.new ≡ list_of result.value) × Begins (seen_by seat.old) (list_of result.value) }
        ensures own { entries_of (number_of seat.old) (list_of result.value) ≡ entries_of (number_of seat.old) (seen_by seat.old) }
        ensures root { start_of result.value ≡ root_in self.now }
        ensures alone { IsFirst seat.old → out_of seat.old ≡ 0 → list_of result.value ≡ seen_by seat.old }
    {
        self.lock.take(rt, &mut seat.seat)
    }

    /// Ends a turn. The laws hold of what the list holds then, which is one legal history, where the disks tell their content.
    pub fn end(&self, seat: &mut GroupSeat<D>, turn: Turn<Behind<D>>)
        requires seat { IsInTurn self.now seat.old }
        requires root { start_of turn.value ≡ root_in self.now }
        requires grew { GrewBy (number_of seat.old) (seen_by seat.old) (list_of turn.value) }
        ensures seat { IsSeatOf self.now seat.new × IsSameSeat seat.old seat.new }
        ensures seen { seen_by seat.new ≡ list_of turn.value }
        ensures history { IsHistory (root_in self.now) (seen_by seat.new) }
    {
        turn.value.laws();
        self.lock.give(&mut seat.seat, turn);
    }

    /// One event in a turn that was taken, which ends with it.
    pub(crate) fn act(
        &self,
        alloc: Global,
        seat: &mut GroupSeat<D>,
        mut turn: Turn<Behind<D>>,
        event: GroupEvent,
    ) -> Result<Answer, NoMemory>
        requires seat { IsInTurn self.now seat.old }
        requires root { start_of turn.value ≡ root_in self.now }
        requires found { seen_by seat.old ≡ list_of turn.value }
        requires event { IsSharedStep event }
        ensures seat { IsSeatOf self.now seat.new × IsSameSeat seat.old seat.new }
        ensures step { IfOk result (λ answer. SeatHasStepped (root_in self.now) (number_of seat.old) (Unit {0}) (seen_by seat.old) event answer
            (seen_by seat.new)) }
        ensures err { OnErr result (Finds (number_of seat.old) (Unit {0}) (seen_by seat.old) (seen_by seat.new)) }
        ensures history { IsHistory (root_in self.now) (seen_by seat.new) }
    {
        let number = seat.seat.number();
        let answer = turn.value.step(alloc, number, event);
        self.end(seat, turn);
        answer
    }

    /// One event of the group, in one turn. A refusal is an answer, and stands in the list with its event; `NoMemory` (1) is none.
    pub fn step<R: Wait>(
        &self,
        rt: &R,
        alloc: Global,
        seat: &mut GroupSeat<D>,
        event: GroupEvent,
    ) -> Result<Answer, NoMemory>
        requires seat { IsSeatOf self.now seat.old }
        requires event { IsSharedStep event }
        ensures seat { IsSeatOf self.now seat.new × IsSameSeat seat.old seat.new }
        ensures step { IfOk result (λ answer. SeatHasStepped (root_in self.now) (number_of seat.old) (IsAlone seat.old) (seen_by seat.old) event answer
            (seen_by seat.new)) }
        ensures err { OnErr result (Finds (number_of seat.old) (IsAlone seat.old) (seen_by seat.old) (seen_by seat.new)) }
        ensures history { IsHistory (root_in self.now) (seen_by seat.new) }
    {
        let turn = self.begin(rt, seat);
        self.act(alloc, seat, turn, event)
    }

    /// Claims a job: that of the least server that has one, its least slot that is committed, not applied, not in hand and free.
    ///
    /// `NoneFree` (60) exactly where no server has one; it stands in the list. The call takes all the memory that it and the end of
    /// its job need; `NoMemory` (1) is no entry.
    pub fn claim<R: Wait>(
        &self,
        rt: &R,
        alloc: Global,
        seat: &mut GroupSeat<D>,
    ) -> Result<Answer, NoMemory>
        requires { IsSeatOf self.now seat.old }
        ensures seat { IsSeatOf self.now seat.new × IsSameSeat seat.old seat.new }
        ensures step { IfOk result (λ answer. SeatSteps (root_in self.now) (number_of seat.old) (IsAlone seat.old) (seen_by seat.old) Claim answer
            (seen_by seat.new)) }
        ensures taken { IfOk result (λ answer. OnJob answer (JobIsTaken (number_of seat.old) (seen_by seat.old) (seen_by seat.new))) }
        ensures err { OnErr result (Finds (number_of seat.old) (IsAlone seat.old) (seen_by seat.old) (seen_by seat.new)) }
        ensures history { IsHistory (root_in self.now) (seen_by seat.new) }
    {
        let mut turn = self.begin(rt, seat);
        let number = seat.seat.number();
        let answer = turn.value.claim(alloc, number);
        self.end(seat, turn);
        answer
    }

    /// Ends a job that this seat claimed and has neither finished nor returned since: its sectors come into the server. `Stale` (61)
    /// where the server began another life meanwhile. It takes no memory.
    pub fn finish<R: Wait>(&self, rt: &R, seat: &mut GroupSeat<D>, filled: Filled) -> Answer
        requires seat { IsSeatOf self.now seat.old }
        requires claimed { SeatHasClaimed (number_of seat.old) (seen_by seat.old) filled }
        ensures seat { IsSeatOf self.now seat.new × IsSameSeat seat.old seat.new }
        ensures step { SeatSteps (root_in self.now) (number_of seat.old) (IsAlone seat.old) (seen_by seat.old) (Finish filled.server filled.life filled.slot)
            result (seen_by seat.new) }
        ensures history { IsHistory (root_in self.now) (seen_by seat.new) }
    {
        let mut turn = self.begin(rt, seat);
        let number = seat.seat.number();
        let answer = turn.value.finish(number, filled);
        self.end(seat, turn);
        answer
    }

    /// Returns a job that this seat claimed and has neither finished nor returned since. It takes no memory.
    pub fn drop_job<R: Wait>(&self, rt: &R, seat: &mut GroupSeat<D>, job: Job)
        requires seat { IsSeatOf self.now seat.old }
        requires claimed { HasInHand (number_of seat.old) (key job.server job.life job.slot) job.op (seen_by seat.old) }
        ensures seat { IsSeatOf self.now seat.new × IsSameSeat seat.old seat.new }
        ensures step { SeatSteps (root_in self.now) (number_of seat.old) (IsAlone seat.old) (seen_by seat.old) (GiveBack job.server job.life job.slot) Done
            (seen_by seat.new) }
        ensures history { IsHistory (root_in self.now) (seen_by seat.new) }
    {
        let mut turn = self.begin(rt, seat);
        let number = seat.seat.number();
        turn.value.give_back(number, job);
        self.end(seat, turn);
    }

    /// The group, once every seat has been joined: its history is that before the first turn, and then what the first seat has seen,
    /// without looks. Each job was claimed while nobody had it in hand, and brought back by the seat that had. No claim is open where no
    /// seat has a job in hand. Where the disks tell their content, those of a server failed at least as often since then as steps of it
    /// were halted, unless a count stands at its last value.
    pub fn close(self, seat: GroupSeat<D>) -> Group<D>
        requires seat { IsSeatOf self seat }
        requires first { IsAlone seat }
        ensures root { root_of result ≡ root_of (root_in self) }
        ensures history { result.history ≡ whole_history (root_in self) (seen_by seat) }
        ensures strangers { (n : ℕ) → splits_of seat < n → entries_of n (seen_by seat) ≡ [] }
        ensures taken { result.taken ≡ handed_out (root_in self).taken (seen_by seat) }
        ensures grown { HasGrown (root_in self) result }
        ensures tidy { (k : Key) → is_tidy k None (seen_by seat) ≡ true }
        ensures claims { ((n : ℕ) (k : Key) → hand_of k None (entries_of n (seen_by seat)) ≡ None) → claims_of [] result.history ≡ [] }
    {
        let SharedGroup { lock } = self;
        let GroupSeat { seat } = seat;
        lock.close(seat).into_group()
    }
}
