//! Workers that apply what is free.
ghost use Rattle.std.specs.Prelude.{◌≡◌, false, true, IfNone, IfOk, IfSome, OnErr};
ghost use Rattle.pf_shared.specs.Seats.{IsSameSeat};
ghost use Rattle.pf_live_seats.specs.Workers.{HasNothing, Holds, IsApplier};

use crate::line::LiveLine;
use pf_base::NoMemory;
use pf_disk::Disk;
use pf_entry::Job;
use pf_group_copy::{Gate, fill};
use pf_live_crew::Turned;
use pf_protocol::Answer;
use pf_shared::GroupSeat;
use std::sync::Wait;

/// A worker that applies what is free.
#[derive(Drop)]
pub struct Applier<D: Disk> {
    pub seat: GroupSeat<D>,
    /// Its number, which the gate is told.
    pub number: u32,
    /// How often the group had been changed when nothing was free.
    pub moves: u64,
    pub ended: bool,
    /// Memory ran out.
    pub wants: bool,
}

impl<D: Disk + Drop> Applier<D> {
    /// Claims a job, where one is free.
    fn claim<R: Wait, G>(&mut self, rt: &R, line: &LiveLine<D, G>) -> Result<Option<Job>, NoMemory>
        requires is { IsApplier line.now.group self.old }
        requires on { self.old.ended ≡ false }
        ensures job { IfOk result (λ job. IfSome job (λ job. Holds line.now.group job self.new)) }
        ensures none { IfOk result (λ job. IfNone job (HasNothing line.now.group self.new)) }
        ensures err { OnErr result (IsApplier line.now.group self.new) }
        ensures same { IsSameSeat self.old.seat self.new.seat × (self.new.ended ≡ self.old.ended) × (self.new.wants ≡ self.old.wants) }
    {
        match line.group.claim(rt, line.alloc, &mut self.seat) {
            Ok(answer) => match answer {
                Answer::Job(job) => Ok(Some(job)),
                _ => Ok(None),
            },
            Err(NoMemory) => Err(NoMemory),
        }
    }

    /// Memory ran out: it ends, and so are all.
    fn give_up<G>(&mut self, line: &LiveLine<D, G>) -> Turned
        requires { IsApplier line.now.group self.old }
        ensures is { IsApplier line.now.group self.new }
        ensures same { IsSameSeat self.old.seat self.new.seat }
    {
        line.stop();
        self.ended = true;
        self.wants = true;
        Turned::Ends
    }

    /// Brings the sectors of a job that it has in hand.
    fn bring<R: Wait, G: Gate>(&mut self, rt: &R, line: &LiveLine<D, G>, job: Job) -> Turned
        requires { Holds line.now.group job self.old }
        ensures is { IsApplier line.now.group self.new }
        ensures same { IsSameSeat self.old.seat self.new.seat }
    {
        line.gate.before(self.number);
        let filled = fill(line.alloc, job);
        line.gate.after(self.number);
        match filled {
            Ok(filled) => {
                let _ = line.group.finish(rt, &mut self.seat, filled);
                line.applied();
                Turned::Went
            }
            Err((job, NoMemory)) => {
                self.wants = true;
                line.group.drop_job(rt, &mut self.seat, job);
                self.give_up(line)
            }
        }
    }

    /// One turn: a claim, and then the end of its job. It ends where nothing is free and all are to end.
    pub fn work<R: Wait, G: Gate>(&mut self, rt: &R, line: &LiveLine<D, G>) -> Turned
        requires { IsApplier line.now.group self.old }
        ensures is { IsApplier line.now.group self.new }
        ensures same { IsSameSeat self.old.seat self.new.seat }
    {
        if self.ended {
            return Turned::Ends;
        }
        let ends = line.is_stopping();
        let moves = line.count();
        if moves == self.moves && !ends {
            return Turned::Waits;
        }
        match self.claim(rt, line) {
            Ok(Some(job)) => self.bring(rt, line, job),
            Ok(None) => {
                line.idled();
                self.moves = moves;
                self.ended = ends;
                if ends { Turned::Ends } else { Turned::Waits }
            }
            Err(NoMemory) => self.give_up(line),
        }
    }

    /// Takes its turns until it has ended.
    pub fn end<R: Wait, G: Gate>(&mut self, rt: &R, line: &LiveLine<D, G>)
        requires { IsApplier line.now.group self.old }
        ensures is { IsApplier line.now.group self.new }
        ensures same { IsSameSeat self.old.seat self.new.seat }
        ensures ended { self.new.ended ≡ true }
    {
        for _ in rt.forever() {
            if self.ended {
                return;
            }
            let _ = self.work(rt, line);
        }
        unreachable!()
    }
}
