//! A host, as the worker that submits knows it.
ghost use Rattle.std.specs.Prelude.{◌≡◌, ◌⊎◌, ℕ, ◌<◌, false, true, IfOk, IfSome, IsTrue, OnErr};
ghost use Rattle.pf_shared.specs.pf_group.specs.GroupIs.{GroupIs};
ghost use Rattle.pf_leadercell.specs.Passes.{IsPassOf};
ghost use Rattle.pf_rings.specs.declared.view.Request.{Request};
ghost use Rattle.pf_shared.specs.Calls.{Finds};
ghost use Rattle.pf_shared.specs.Seats.{IsAlone, IsSameSeat, IsSeatOf, number_of, root_in, seen_by};
ghost use Rattle.pf_live_seats.specs.declared.serving.Standing.TheVariants.{Asked, Placed, Settled};
ghost use Rattle.pf_live_seats.specs.Deliveries.{LiveTrace as Entries};
ghost use Rattle.pf_live_seats.specs.Submitters.{AnswersOne, FindsFull, RequestIsAnswered, HasTurned, IsServedCounted, RequestIsHanded, IsHandedToLeader, HostIsServed, IsServedIn};
ghost use Rattle.pf_live_seats.specs.Submitters.{IsSettledBy, OnlyLooks, ServesOn, standing_after};

use crate::line::{HostRings, LiveLine};
use crate::plan::LinePlan;
use pf_base::{Data, NoMemory, Payload, Range, ServerId, Slot, Term};
use pf_disk::Disk;
use pf_group_copy::Gate;
use pf_leadercell::LeaderPass;
use pf_protocol::Answer;
use pf_rings::{Full, Request, RingPass};
use pf_shared::GroupSeat;
use pf_shared::pf_group::Down;
use std::sync::Wait;

/// The number that the gate is told of the worker that submits.
const SERVER: u32 = 200;

/// How the request stands that was taken from a host last.
#[derive(Clone, Copy, Debug, PartialEq, Eq)]
pub enum Standing {
    /// It was acknowledged, or none was taken yet.
    Settled,
    /// It has no slot.
    Asked(Request),
    /// It has this slot, in this term, and was not acknowledged yet.
    Placed {
        term: Term,
        slot: Slot,
        request: Request,
    },
}

/// Where a request is handed: a server, and how many changes of the group were counted before it was named.
#[derive(Clone, Copy)]
pub struct Target {
    pub server: ServerId,
    pub moves: u64,
}

/// How a request stands once it was handed to a server that had this term.
fn standing_after(term: Result<Term, Down>, answer: &Answer, request: Request) -> Standing
    ensures { result ≡ standing_after term answer.now request }
{
    match term {
        Ok(term) => match answer {
            Answer::Slot(slot) => Standing::Placed {
                term,
                slot: *slot,
                request,
            },
            _ => Standing::Asked(request),
        },
        Err(Down) => Standing::Asked(request),
    }
}

/// A host, as the worker that submits knows it.
#[derive(Drop)]
pub struct Served {
    /// The server thread's pass of the host's ring of requests.
    pub pass: RingPass,
    /// The pass that puts into the host's ring of answers.
    pub answers: RingPass,
    /// How many requests were taken.
    pub taken: u32,
    pub standing: Standing,
    /// How often the group had been changed when the last request was handed to a server, or its slot was looked for.
    pub moves: u64,
}

impl Served {
    /// Whether nothing is to be done for the host unless it puts a request or the group is changed once more, and no request is to come.
    pub(crate) fn is_stuck(&self, writes: u32, moves: u64) -> bool {
        match self.standing {
            Standing::Settled => self.taken >= writes,
            Standing::Asked(_) | Standing::Placed { .. } => self.moves == moves,
        }
    }

    /// Takes the host's next request, if its ring has one. Whether it did.
    fn take<R: Wait>(&mut self, rt: &R, rings: &HostRings, plan: &LinePlan) -> bool
        requires is { HostIsServed plan.now rings.now self.old }
        requires settled { self.old.standing ≡ Settled }
        requires more { self.old.taken < plan.now.writes }
        ensures is { HostIsServed plan.now rings.now self.new }
        ensures answers { self.new.answers ≡ self.old.answers }
        ensures serves { (root : GroupIs) (n h : ℕ) (seen : Entries) → ServesOn plan.now root n h self.old seen self.new seen }
    {
        match rings.requests.take(rt, &mut self.pass) {
            Ok(request) => {
                self.taken += 1;
                self.standing = Standing::Asked(request);
                self.moves = u64::MAX;
                true
            }
            Err(_) => false,
        }
    }

    /// Takes the next request of this host, if it has more and its ring has one. Whether it did.
    fn take_next<R: Wait, D: Disk, G>(&mut self, rt: &R, line: &LiveLine<D, G>, host: u32) -> bool
        requires is { IsServedIn line.now.plan line.now.rings.items host self.old }
        requires settled { self.old.standing ≡ Settled }
        ensures is { IsServedIn line.now.plan line.now.rings.items host self.new }
        ensures answers { self.new.answers ≡ self.old.answers }
        ensures serves { (root : GroupIs) (n : ℕ) (seen : Entries) → ServesOn line.now.plan root n host self.old seen self.new seen }
    {
        if self.taken >= line.plan.writes {
            return false;
        }
        let Some(rings) = line.rings.get(host as usize) else {
            return false;
        };
        self.take(rt, rings, &line.plan)
    }

    /// Answers the host that its last request, which has a slot, is acknowledged. Whether it did: where eight answers stand in its ring, the
    /// request stands as it did.
    fn answer<R: Wait>(
        &mut self,
        rt: &R,
        rings: &HostRings,
        _plan: &LinePlan,
        request: Request,
    ) -> bool
        requires is { HostIsServed _plan.now rings.now self.old }
        requires placed { (term slot : ℕ) × (self.old.standing ≡ Placed term slot request) }
        ensures is { HostIsServed _plan.now rings.now self.new }
        ensures same { (self.new.pass ≡ self.old.pass) × (self.new.taken ≡ self.old.taken) }
        ensures answered { result ≡ true → AnswersOne self.old request self.new × (self.new.standing ≡ Settled) }
        ensures full { result ≡ false → FindsFull self.old self.new × (self.new.standing ≡ self.old.standing) }
    {
        match rings.answers.put(rt, &mut self.answers, request) {
            Ok(()) => {
                self.standing = Standing::Settled;
                rings.bell.ring();
                true
            }
            Err((_, Full)) => false,
        }
    }

    /// Looks whether the slot of its last request is acknowledged, if the group, which was changed so often now, was changed since it last did,
    /// and answers the host if it is. Whether it did. Where the host's ring has no room for the answer, it looks again. Where memory runs out
    /// (`NoMemory`, 1) it is not known.
    fn look<R: Wait, D: Disk + Drop, G>(
        &mut self,
        rt: &R,
        line: &LiveLine<D, G>,
        seat: &mut GroupSeat<D>,
        host: u32,
        moves: u64,
        term: Term,
        slot: Slot,
        request: Request,
    ) -> Result<bool, NoMemory>
        requires seat { IsSeatOf line.now.group seat.old }
        requires is { IsServedIn line.now.plan line.now.rings.items host self.old }
        requires placed { self.old.standing ≡ Placed term slot request }
        ensures seat { IsSeatOf line.now.group seat.new × IsSameSeat seat.old seat.new }
        ensures is { IsServedIn line.now.plan line.now.rings.items host self.new }
        ensures looks { OnlyLooks (number_of seat.old) (seen_by seat.old) (seen_by seat.new) }
        ensures answered { RequestIsAnswered (root_in line.now.group) (number_of seat.old) (IsAlone seat.old) (seen_by seat.old) moves
            (Placed term slot request) self.old self.new result (seen_by seat.new) }
        ensures serves { ServesOn line.now.plan (root_in line.now.group) (number_of seat.old) host self.old (seen_by seat.old) self.new (seen_by seat.new) }
    {
        if moves == self.moves {
            return Ok(false);
        }
        let Some(rings) = line.rings.get(host as usize) else {
            unreachable!()
        };
        let is_acked = line.group.is_acked(rt, line.alloc, seat, term, slot)?;
        if is_acked {
            return Ok(self.answer(rt, rings, &line.plan, request));
        }
        self.moves = moves;
        Ok(false)
    }

    /// Hands a request to a server, and tells the answer. `None` where its range is none that may be written: then it was not handed over.
    /// Where memory runs out (`NoMemory`, 1) it was not either.
    pub fn hand<R: Wait, D: Disk + Drop, G>(
        &mut self,
        rt: &R,
        line: &LiveLine<D, G>,
        seat: &mut GroupSeat<D>,
        host: u32,
        target: Target,
        request: Request,
    ) -> Result<Option<Answer>, NoMemory>
        requires seat { IsSeatOf line.now.group seat.old }
        requires counted { IsServedCounted line.now.plan self.old }
        requires host { host < line.now.plan.hosts }
        requires server { target.server < 3 }
        requires asked { self.old.standing ≡ Asked request }
        ensures seat { IsSeatOf line.now.group seat.new × IsSameSeat seat.old seat.new }
        ensures passes { (self.new.pass ≡ self.old.pass) × (self.new.answers ≡ self.old.answers) }
        ensures counted { IsServedCounted line.now.plan self.new }
        ensures serves { ServesOn line.now.plan (root_in line.now.group) (number_of seat.old) host self.old (seen_by seat.old) self.new (seen_by seat.new) }
        ensures handed { IfOk result (λ told. RequestIsHanded (number_of seat.old) (IsAlone seat.old) (seen_by seat.old) target.server request told
            (seen_by seat.new)) }
        ensures settled { IfOk result (λ told. IfSome told (λ answer. IsTrue (root_in line.now.group).told → IsSettledBy answer self.new.standing)) }
        ensures err { OnErr result (Finds (number_of seat.old) (IsAlone seat.old) (seen_by seat.old) (seen_by seat.new)) }
    {
        let Ok(range) = Range::new(request.range.first(), request.range.count()) else {
            return Ok(None);
        };
        let data = Data::filled(line.alloc, request.byte, range.count())?;
        let payload = Payload::new(line.alloc, data)?;
        let (term, answer) = line
            .group
            .submit(rt, line.alloc, seat, target.server, range, payload)?;
        self.standing = standing_after(term, &answer, request);
        self.moves = target.moves;
        if self.is_placed() {
            line.placed();
        }
        Ok(Some(answer))
    }

    /// Whether its last request has a slot that was not acknowledged yet.
    fn is_placed(&self) -> bool {
        matches!(self.standing, Standing::Placed { .. })
    }

    /// Hands a request to the server that was published last as the leader, between the calls of the gate, if the group, which was changed so
    /// often now, was changed since it last was. Whether it has a slot now. Where memory runs out (`NoMemory`, 1) it was not handed over.
    fn submit<R: Wait, D: Disk + Drop, G: Gate>(
        &mut self,
        rt: &R,
        line: &LiveLine<D, G>,
        seat: &mut GroupSeat<D>,
        leaders: &mut LeaderPass,
        host: u32,
        moves: u64,
        request: Request,
    ) -> Result<bool, NoMemory>
        requires seat { IsSeatOf line.now.group seat.old }
        requires leaders { IsPassOf line.now.cell leaders.old }
        requires counted { IsServedCounted line.now.plan self.old }
        requires host { host < line.now.plan.hosts }
        requires asked { self.old.standing ≡ Asked request }
        ensures seat { IsSeatOf line.now.group seat.new × IsSameSeat seat.old seat.new }
        ensures leaders { IsPassOf line.now.cell leaders.new }
        ensures passes { (self.new.pass ≡ self.old.pass) × (self.new.answers ≡ self.old.answers) }
        ensures counted { IsServedCounted line.now.plan self.new }
        ensures handed { (moves ≡ self.old.moves) ⊎ IfOk result (λ placed. IsHandedToLeader (number_of seat.old) (IsAlone seat.old) (seen_by seat.old)
            leaders.new request (seen_by seat.new)) }
        ensures turn { HasTurned (number_of seat.old) leaders.new (seen_by seat.old) (seen_by seat.new) }
        ensures serves { ServesOn line.now.plan (root_in line.now.group) (number_of seat.old) host self.old (seen_by seat.old) self.new (seen_by seat.new) }
    {
        if moves == self.moves {
            return Ok(false);
        }
        let (_, server) = line.cell.hint(rt, leaders);
        line.gate.before(SERVER);
        let handed = self.hand(rt, line, seat, host, Target { server, moves }, request);
        line.gate.after(SERVER);
        let _told = handed?;
        Ok(self.is_placed())
    }

    /// Does what is next for the host: takes its next request, hands it to the leader that was published last, or looks whether its slot is
    /// acknowledged, and then answers the host. Whether it did. It hands over and looks only where the group, which was changed so often now,
    /// was changed since it last did. Where memory runs out (`NoMemory`, 1) it does neither.
    pub(crate) fn serve<R: Wait, D: Disk + Drop, G: Gate>(
        &mut self,
        rt: &R,
        line: &LiveLine<D, G>,
        seat: &mut GroupSeat<D>,
        leaders: &mut LeaderPass,
        host: u32,
        moves: u64,
    ) -> Result<bool, NoMemory>
        requires seat { IsSeatOf line.now.group seat.old }
        requires leaders { IsPassOf line.now.cell leaders.old }
        requires host { host < line.now.plan.hosts }
        requires is { IsServedIn line.now.plan line.now.rings.items host self.old }
        ensures seat { IsSeatOf line.now.group seat.new × IsSameSeat seat.old seat.new }
        ensures leaders { IsPassOf line.now.cell leaders.new }
        ensures is { IsServedIn line.now.plan line.now.rings.items host self.new }
        ensures handed { (request : Request) → self.old.standing ≡ Asked request
            → (moves ≡ self.old.moves) ⊎ IfOk result (λ went. IsHandedToLeader (number_of seat.old) (IsAlone seat.old) (seen_by seat.old) leaders.new request
            (seen_by seat.new)) }
        ensures answered { RequestIsAnswered (root_in line.now.group) (number_of seat.old) (IsAlone seat.old) (seen_by seat.old) moves self.old.standing
            self.old self.new result (seen_by seat.new) }
        ensures turn { HasTurned (number_of seat.old) leaders.new (seen_by seat.old) (seen_by seat.new) }
        ensures serves { ServesOn line.now.plan (root_in line.now.group) (number_of seat.old) host self.old (seen_by seat.old) self.new (seen_by seat.new) }
    {
        match self.standing {
            Standing::Settled => Ok(self.take_next(rt, line, host)),
            Standing::Asked(request) => self.submit(rt, line, seat, leaders, host, moves, request),
            Standing::Placed {
                term,
                slot,
                request,
            } => self.look(rt, line, seat, host, moves, term, slot, request),
        }
    }
}
