//! The worker that delivers packets.
ghost use Rattle.std.specs.Prelude.{◌≡◌, ◌<◌, IfOk};
ghost use Rattle.pf_shared.specs.Seats.{root_in, seen_by};
ghost use Rattle.pf_live_seats.specs.Switches.{HasPublished, IsSwitch, IsSameSwitch};

use crate::line::LiveLine;
use pf_base::NoMemory;
use pf_disk::Disk;
use pf_group_copy::Gate;
use pf_leadercell::LeaderPass;
use pf_live_crew::Turned;
use pf_shared::GroupSeat;
use pf_shared::pf_group::is_passed_over;
use std::snapshot::Snapshot;
use std::sync::Wait;

/// The number that the gate is told of the switch.
const SWITCH: u32 = 300;

/// The worker that delivers the least packet that is left, and then publishes the leader.
#[derive(Drop)]
pub struct Switch<D: Disk> {
    pub seat: GroupSeat<D>,
    /// Its seat as it began.
    pub begun: Snapshot<GroupSeat<D>>,
    /// The leader cell's first pass.
    pub pass: LeaderPass,
    /// Of the packets below this one those that are left were passed over in this line.
    pub next: u32,
    /// How many packets were delivered in this line.
    pub made: u32,
    /// How often the group had been changed when no packet was left.
    pub moves: u64,
    /// Whether the leader was published once.
    pub began: bool,
    pub ended: bool,
    /// Memory ran out.
    pub wants: bool,
}

impl<D: Disk + Drop> Switch<D> {
    /// Memory ran out, or it is done: it ends, and so are all.
    fn end<G>(&mut self, line: &LiveLine<D, G>, wants: bool) -> Turned
        requires { IsSwitch line.now.group line.now.cell line.now.plan.turns self.old }
        ensures is { IsSwitch line.now.group line.now.cell line.now.plan.turns self.new }
        ensures same { IsSameSwitch self.old self.new }
    {
        line.stop();
        self.ended = true;
        self.wants |= wants;
        Turned::Ends
    }

    /// Publishes the leader, where there is one, unless one of a greater term was. Where memory runs out (`NoMemory`, 1) it does not.
    fn publish<R: Wait, G>(&mut self, rt: &R, line: &LiveLine<D, G>) -> Result<(), NoMemory>
        requires { IsSwitch line.now.group line.now.cell line.now.plan.turns self.old }
        ensures is { IsSwitch line.now.group line.now.cell line.now.plan.turns self.new }
        ensures same { IsSameSwitch self.old self.new × (self.new.made ≡ self.old.made) }
        ensures published { IfOk result (λ done. HasPublished (root_in line.now.group) (seen_by self.new.seat) self.new.pass) }
    {
        let leader = line.group.leader(rt, line.alloc, &mut self.seat)?;
        if let Some((term, server)) = leader {
            line.cell.publish(rt, &mut self.pass, term, server);
        }
        Ok(())
    }

    /// Whether a packet is left that was not passed over. Where memory runs out (`NoMemory`, 1) it is not known.
    fn finds<R: Wait, G>(&mut self, rt: &R, line: &LiveLine<D, G>) -> Result<bool, NoMemory>
        requires { IsSwitch line.now.group line.now.cell line.now.plan.turns self.old }
        ensures is { IsSwitch line.now.group line.now.cell line.now.plan.turns self.new }
        ensures same { IsSameSwitch self.old self.new × (self.new.made ≡ self.old.made) }
    {
        let left = line
            .group
            .left_from(rt, line.alloc, &mut self.seat, self.next)?;
        Ok(left.is_some())
    }

    /// Delivers the least packet that is left and was not passed over, if there still is one. Where memory runs out (`NoMemory`, 1) it
    /// does not.
    fn deliver<R: Wait, G>(&mut self, rt: &R, line: &LiveLine<D, G>) -> Result<(), NoMemory>
        requires is { IsSwitch line.now.group line.now.cell line.now.plan.turns self.old }
        requires few { self.old.made < line.now.plan.turns }
        ensures is { IsSwitch line.now.group line.now.cell line.now.plan.turns self.new }
        ensures same { IsSameSwitch self.old self.new }
    {
        // That the number is in its range is asked of the proof alone.
        let _turns = line.plan.turns;
        let told = line
            .group
            .deliver_left(rt, line.alloc, &mut self.seat, self.next)?;
        if let Some((k, answer)) = told {
            if is_passed_over(&answer) {
                self.next = k + 1;
            } else {
                self.next = k;
                self.made += 1;
            }
        }
        Ok(())
    }

    /// Delivers the least packet that is left and was not passed over, between the calls of the gate, and publishes the leader that comes of
    /// it. Where memory runs out (`NoMemory`, 1) it does not publish.
    fn deliver_next<R: Wait, G: Gate>(
        &mut self,
        rt: &R,
        line: &LiveLine<D, G>,
    ) -> Result<(), NoMemory>
        requires is { IsSwitch line.now.group line.now.cell line.now.plan.turns self.old }
        requires few { self.old.made < line.now.plan.turns }
        ensures is { IsSwitch line.now.group line.now.cell line.now.plan.turns self.new }
        ensures same { IsSameSwitch self.old self.new }
        ensures published { IfOk result (λ done. HasPublished (root_in line.now.group) (seen_by self.new.seat) self.new.pass) }
    {
        line.gate.before(SWITCH);
        let delivered = self.deliver(rt, line);
        line.gate.after(SWITCH);
        delivered?;
        self.publish(rt, line)
    }

    /// One step: a delivery, and the leader that comes of it. It ends where it made all its deliveries and a packet is left.
    fn step<R: Wait, G: Gate>(&mut self, rt: &R, line: &LiveLine<D, G>) -> Result<Turned, NoMemory>
        requires { IsSwitch line.now.group line.now.cell line.now.plan.turns self.old }
        ensures is { IsSwitch line.now.group line.now.cell line.now.plan.turns self.new }
        ensures same { IsSameSwitch self.old self.new }
    {
        let moves = line.count();
        if moves == self.moves {
            return Ok(Turned::Waits);
        }
        if !self.began {
            self.publish(rt, line)?;
            self.began = true;
        }
        if !self.finds(rt, line)? {
            self.moves = moves;
            line.calm_down(moves);
            return Ok(Turned::Waits);
        }
        if self.made >= line.plan.turns {
            return Ok(self.end(line, false));
        }
        self.deliver_next(rt, line)?;
        line.delivered(self.made);
        Ok(Turned::Went)
    }

    /// One turn. It ends where it made all its deliveries and a packet is left, or where all are to end.
    pub fn work<R: Wait, G: Gate>(&mut self, rt: &R, line: &LiveLine<D, G>) -> Turned
        requires { IsSwitch line.now.group line.now.cell line.now.plan.turns self.old }
        ensures is { IsSwitch line.now.group line.now.cell line.now.plan.turns self.new }
        ensures same { IsSameSwitch self.old self.new }
    {
        if self.ended {
            return Turned::Ends;
        }
        if line.is_stopping() {
            return self.end(line, false);
        }
        match self.step(rt, line) {
            Ok(turned) => turned,
            Err(NoMemory) => self.end(line, true),
        }
    }
}
