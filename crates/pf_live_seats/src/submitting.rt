//! The worker that hands the requests of hosts to the leader.
ghost use Rattle.std.specs.Prelude.{◌<◌};
ghost use Rattle.pf_shared.specs.Seats.{number_of, seen_by};
ghost use Rattle.pf_live_seats.specs.Submitters.{HasTurned, IsSubmitter, IsSameSubmitter};

use crate::line::LiveLine;
use crate::serving::Served;
use pf_base::NoMemory;
use pf_disk::Disk;
use pf_group_copy::Gate;
use pf_leadercell::LeaderPass;
use pf_live_crew::Turned;
use pf_shared::GroupSeat;
use std::snapshot::Snapshot;
use std::sync::Wait;

/// The worker that takes the requests of hosts from their rings, and hands each to the leader that was published last, until it has a
/// slot.
#[derive(Drop)]
pub struct Submitter<D: Disk> {
    pub seat: GroupSeat<D>,
    /// Its seat as it began.
    pub begun: Snapshot<GroupSeat<D>>,
    pub pass: LeaderPass,
    /// One of each host.
    pub served: Vec<Served>,
    /// The host whose turn is next.
    pub next: usize,
    pub ended: bool,
    /// Memory ran out.
    pub wants: bool,
}

impl<D: Disk + Drop> Submitter<D> {
    /// It is done, as all are to be.
    fn end<G>(&mut self, line: &LiveLine<D, G>, wants: bool) -> Turned
        requires { IsSubmitter line.now.group line.now.cell line.now.plan line.now.rings.items self.old }
        ensures is { IsSubmitter line.now.group line.now.cell line.now.plan line.now.rings.items self.new }
        ensures same { IsSameSubmitter self.old self.new }
    {
        line.stop();
        self.ended = true;
        self.wants |= wants;
        Turned::Ends
    }

    /// Serves the host whose turn it is: it looks at most, or hands one request to the server that it has seen published last. Where memory
    /// runs out (`NoMemory`, 1) it may have begun to.
    fn serve<R: Wait, G: Gate>(&mut self, rt: &R, line: &LiveLine<D, G>) -> Result<Turned, NoMemory>
        requires is { IsSubmitter line.now.group line.now.cell line.now.plan line.now.rings.items self.old }
        ensures is { IsSubmitter line.now.group line.now.cell line.now.plan line.now.rings.items self.new }
        ensures same { IsSameSubmitter self.old self.new }
        ensures turn { HasTurned (number_of self.old.seat) self.new.pass (seen_by self.old.seat) (seen_by self.new.seat) }
    {
        let host = self.next;
        if host >= self.served.len() {
            self.next = 0;
            return Ok(Turned::Waits);
        }
        self.next += 1;
        let moves = line.count();
        let went = self.served[host].serve(
            rt,
            line,
            &mut self.seat,
            &mut self.pass,
            host as u32,
            moves,
        )?;
        Ok(if went { Turned::Went } else { Turned::Looks })
    }

    /// Whether no host can get on unless the group is changed, and no packet is left to change it.
    fn is_stuck<G>(&self, line: &LiveLine<D, G>) -> bool {
        let moves = line.count();
        line.is_calm(moves)
            && self
                .served
                .iter()
                .all(|served| served.is_stuck(line.plan.writes, moves))
    }

    /// One turn, in which it serves one host. It ends where all are to end, or no host can get on.
    pub fn work<R: Wait, G: Gate>(&mut self, rt: &R, line: &LiveLine<D, G>) -> Turned
        requires { IsSubmitter line.now.group line.now.cell line.now.plan line.now.rings.items self.old }
        ensures is { IsSubmitter line.now.group line.now.cell line.now.plan line.now.rings.items self.new }
        ensures same { IsSameSubmitter self.old self.new }
    {
        if self.ended {
            return Turned::Ends;
        }
        if line.is_stopping() || self.is_stuck(line) {
            return self.end(line, false);
        }
        match self.serve(rt, line) {
            Ok(turned) => turned,
            Err(NoMemory) => self.end(line, true),
        }
    }
}
