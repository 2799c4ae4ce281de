//! What the first seat does before a line is judged, beside looks.
ghost use Rattle.std.specs.Prelude.{◌≡◌, ◌≢◌, ℕ, ◌<◌, IfOk, IsTrue, slice_get};
ghost use Rattle.pf_live_seats.specs.pf_group_network.specs.Shown.{IsLeader};
ghost use Rattle.pf_live_seats.specs.pf_shared.specs.Seats.{root_in, seen_by};
ghost use Rattle.pf_live_seats.specs.pf_shared.specs.Since.{state_by_now};
ghost use Rattle.pf_live_line.specs.Crews.{IsCrew};
ghost use Rattle.pf_live_line.specs.Judging.{AllSubmitted, AreSubmitted, HasJudged, HasLooked, IsPublished, RequestIsRefusedBy};

use crate::crew::Crew;
use pf_base::{NoMemory, ServerId, Term};
use pf_disk::Disk;
use pf_live_seats::{LiveLine, Standing, Target};
use std::sync::Wait;

impl<D: Disk + Drop> Crew<D> {
    /// Hands the last request of a host to a server, if it has no slot. It has one then, or was refused. Where memory runs out (`NoMemory`, 1)
    /// it was not handed over.
    fn hand<R: Wait, G>(
        &mut self,
        rt: &R,
        line: &LiveLine<D, G>,
        host: u32,
        server: ServerId,
    ) -> Result<(), NoMemory>
        requires crew { IsCrew line.now.group line.now.cell line.now.plan line.now.rings.items self.old }
        requires host { host < line.now.plan.hosts }
        requires server { server < 3 }
        ensures judged { HasJudged line.now.group line.now.cell line.now.plan line.now.rings.items self.old self.new }
        ensures others { (h : ℕ) → h ≢ host → slice_get self.new.served.items h ≡ slice_get self.old.served.items h }
        ensures refused { IfOk result (λ done. IsTrue (root_in line.now.group).told
            → RequestIsRefusedBy line.now.plan (root_in line.now.group) (seen_by self.new.seat) server self.new.served.items host) }
        ensures submitted { IfOk result (λ done. AreSubmitted (root_in line.now.group) (seen_by self.new.seat) self.new.served.items host) }
    {
        let place = host as usize;
        let Standing::Asked(request) = self.served[place].standing else {
            return Ok(());
        };
        let moves = line.count();
        let target = Target { server, moves };
        let _told = self.served[place].hand(rt, line, &mut self.seat, host, target, request)?;
        Ok(())
    }

    /// Hands the last request of each host to a server, if it has no slot. It refused all that have none then. Where memory runs out
    /// (`NoMemory`, 1) some were not handed over.
    pub(crate) fn hand_all<R: Wait, G>(
        &mut self,
        rt: &R,
        line: &LiveLine<D, G>,
        server: ServerId,
    ) -> Result<(), NoMemory>
        requires crew { IsCrew line.now.group line.now.cell line.now.plan line.now.rings.items self.old }
        requires server { server < 3 }
        ensures judged { HasJudged line.now.group line.now.cell line.now.plan line.now.rings.items self.old self.new }
        ensures refused { IfOk result (λ done. IsTrue (root_in line.now.group).told → (h : ℕ) → h < line.now.plan.hosts
            → RequestIsRefusedBy line.now.plan (root_in line.now.group) (seen_by self.new.seat) server self.new.served.items h) }
        ensures submitted { IfOk result (λ done. AllSubmitted line.now.plan (root_in line.now.group) (seen_by self.new.seat) self.new.served.items) }
    {
        for host in 0..line.plan.hosts {
            self.hand(rt, line, host, server)?;
        }
        Ok(())
    }

    /// Publishes the leader, if one serves, and tells it. Where memory runs out (`NoMemory`, 1) it is not known.
    pub(crate) fn publish<R: Wait, G>(
        &mut self,
        rt: &R,
        line: &LiveLine<D, G>,
    ) -> Result<Option<(Term, ServerId)>, NoMemory>
        requires { IsCrew line.now.group line.now.cell line.now.plan line.now.rings.items self.old }
        ensures looked { HasLooked line.now.group line.now.cell line.now.plan line.now.rings.items self.old self.new }
        ensures leader { IfOk result (λ leader. IsTrue (root_in line.now.group).told
            → IsLeader (state_by_now (root_in line.now.group) (seen_by self.new.seat)) leader) }
        ensures published { IfOk result (λ leader. IsPublished (root_in line.now.group) (seen_by self.new.seat) self.new.first) }
    {
        let leader = self.leader(rt, line)?;
        if let Some((term, server)) = leader {
            line.cell.publish(rt, &mut self.first, term, server);
        }
        Ok(leader)
    }
}
