//! A live line between two runs of its threads, and whether it has come to an end.
ghost use Rattle.std.specs.Prelude.{◌≡◌, ◌≢◌, ◌↔◌, ℕ, ◌<◌, IfOk, IfSome, IsTrue, None, Some, false, true};
ghost use Rattle.pf_live_seats.specs.pf_group_network.specs.Shown.{IsLeader, is_acked};
ghost use Rattle.pf_live_seats.specs.pf_shared.specs.Seats.{root_in, seen_by};
ghost use Rattle.pf_live_seats.specs.pf_shared.specs.Since.{state_by_now};
ghost use Rattle.pf_live_seats.specs.Deliveries.{LiveTrace, least_left_in_line};
ghost use Rattle.pf_live_seats.specs.Ends.{NoneIsLeft};
ghost use Rattle.pf_live_line.specs.Crews.{IsCrew};
ghost use Rattle.pf_live_line.specs.Judging.{AllSubmitted, AreRefused, HasCount, HasJudged, HasLooked, HasNewLeader, IsJudged, IsPublished};

use pf_base::{LiveEnd, NoMemory, ServerId, Slot, Term};
use pf_disk::Disk;
use pf_leadercell::LeaderPass;
use pf_live_seats::pf_shared::GroupSeat;
use pf_live_seats::{HostSeat, LiveLine, Served, Standing};
use std::sync::Wait;

/// A live line between two runs of its threads: the group's first seat, and what its workers keep.
#[derive(Drop)]
pub struct Crew<D: Disk> {
    pub(crate) seat: GroupSeat<D>,
    /// How many seats were split from it.
    pub(crate) splits: u64,
    /// In the order of their numbers, as all of them that were served.
    pub(crate) hosts: Vec<HostSeat>,
    pub(crate) served: Vec<Served>,
    /// The leader cell's first pass, and another.
    pub(crate) first: LeaderPass,
    pub(crate) leaders: LeaderPass,
    /// Of the packets below this one those that are left were passed over.
    pub(crate) next: u32,
    /// How many packets were delivered.
    pub(crate) made: u32,
}

impl<D: Disk + Drop> Crew<D> {
    /// The least packet that is left and was not passed over. Where memory runs out (`NoMemory`, 1) it is not known.
    fn least_left<R: Wait, G>(
        &mut self,
        rt: &R,
        line: &LiveLine<D, G>,
    ) -> Result<Option<u32>, NoMemory>
        requires { IsCrew line.now.group line.now.cell line.now.plan line.now.rings.items self.old }
        ensures looked { HasLooked line.now.group line.now.cell line.now.plan line.now.rings.items self.old self.new }
        ensures first { self.new.first ≡ self.old.first }
        ensures left { IfOk result (λ left. IsTrue (root_in line.now.group).told
            → least_left_in_line (state_by_now (root_in line.now.group) (seen_by self.new.seat)) (seen_by self.new.seat) ≡ left) }
    {
        line.group
            .left_from(rt, line.alloc, &mut self.seat, self.next)
    }

    /// The serving server of the greatest term, with its term. Where memory runs out (`NoMemory`, 1) it is not known.
    pub(crate) fn leader<R: Wait, G>(
        &mut self,
        rt: &R,
        line: &LiveLine<D, G>,
    ) -> Result<Option<(Term, ServerId)>, NoMemory>
        requires { IsCrew line.now.group line.now.cell line.now.plan line.now.rings.items self.old }
        ensures looked { HasLooked line.now.group line.now.cell line.now.plan line.now.rings.items self.old self.new }
        ensures low { IfOk result (λ leader. IfSome leader (λ served. served.1 < 3)) }
        ensures leader { IfOk result (λ leader. IsTrue (root_in line.now.group).told
            → IsLeader (state_by_now (root_in line.now.group) (seen_by self.new.seat)) leader) }
    {
        line.group.leader(rt, line.alloc, &mut self.seat)
    }

    /// Whether the slot was acknowledged in this term. Where memory runs out (`NoMemory`, 1) it is not known.
    fn is_acked<R: Wait, G>(
        &mut self,
        rt: &R,
        line: &LiveLine<D, G>,
        term: Term,
        slot: Slot,
    ) -> Result<bool, NoMemory>
        requires { IsCrew line.now.group line.now.cell line.now.plan line.now.rings.items self.old }
        ensures looked { HasLooked line.now.group line.now.cell line.now.plan line.now.rings.items self.old self.new }
        ensures first { self.new.first ≡ self.old.first }
        ensures acked { IfOk result (λ is. IsTrue (root_in line.now.group).told
            → is ≡ is_acked (state_by_now (root_in line.now.group) (seen_by self.new.seat)) term slot) }
    {
        line.group
            .is_acked(rt, line.alloc, &mut self.seat, term, slot)
    }

    /// How many writes of the host are acknowledged, and whether it waits in vain for one more, where it is told whether the leader refused
    /// each request that has no slot. Where memory runs out (`NoMemory`, 1) it is not known.
    fn count<R: Wait, G>(
        &mut self,
        rt: &R,
        line: &LiveLine<D, G>,
        host: u32,
        refused: bool,
    ) -> Result<(u32, bool), NoMemory>
        requires crew { IsCrew line.now.group line.now.cell line.now.plan line.now.rings.items self.old }
        requires host { host < line.now.plan.hosts }
        requires refused { refused ≡ true → AreRefused line.now.plan (root_in line.now.group) (seen_by self.old.seat) self.old.served.items }
        ensures looked { HasLooked line.now.group line.now.cell line.now.plan line.now.rings.items self.old self.new }
        ensures first { self.new.first ≡ self.old.first }
        ensures count { IfOk result (λ count. IsTrue (root_in line.now.group).told
            → HasCount line.now.plan (root_in line.now.group) (seen_by self.new.seat) host refused count) }
    {
        let Some(served) = self.served.get(host as usize) else {
            unreachable!()
        };
        let taken = served.taken;
        match served.standing {
            Standing::Settled => Ok((taken, false)),
            Standing::Asked(_) => Ok((taken - 1, refused)),
            Standing::Placed { term, slot, .. } => {
                if self.is_acked(rt, line, term, slot)? {
                    Ok((taken, false))
                } else {
                    Ok((taken.saturating_sub(1), true))
                }
            }
        }
    }

    /// Which end it is where no packet is left and this is the leader, where it is told whether that refused each request that has no slot;
    /// else the leader is new. `None` where a write can be handed to the leader that has no slot. Where memory runs out (`NoMemory`, 1) it is
    /// not known.
    fn judge_hosts<R: Wait, G>(
        &mut self,
        rt: &R,
        line: &LiveLine<D, G>,
        leader: Option<(Term, ServerId)>,
        refused: bool,
    ) -> Result<Option<LiveEnd>, NoMemory>
        requires crew { IsCrew line.now.group line.now.cell line.now.plan line.now.rings.items self.old }
        requires none { IsTrue (root_in line.now.group).told → NoneIsLeft (root_in line.now.group) (seen_by self.old.seat) }
        requires leader { IsTrue (root_in line.now.group).told → IsLeader (state_by_now (root_in line.now.group) (seen_by self.old.seat)) leader }
        requires refused { refused ≡ true → AreRefused line.now.plan (root_in line.now.group) (seen_by self.old.seat) self.old.served.items }
        ensures looked { HasLooked line.now.group line.now.cell line.now.plan line.now.rings.items self.old self.new }
        ensures first { self.new.first ≡ self.old.first }
        ensures end { IfOk result (λ told. IsTrue (root_in line.now.group).told → (before : LiveTrace)
            → (refused ≡ false → leader ≢ None → HasNewLeader (root_in line.now.group) before (seen_by self.new.seat))
            → IsJudged line.now.plan (root_in line.now.group) before (seen_by self.new.seat) told) }
    {
        let mut waits = false;
        for host in 0..line.plan.hosts {
            let (acked, in_vain) = self.count(rt, line, host, refused)?;
            if acked < line.plan.writes {
                if leader.is_some() && !in_vain {
                    return Ok(None);
                }
                waits = true;
            }
        }
        if waits {
            Ok(Some(LiveEnd::Stalled))
        } else {
            Ok(Some(LiveEnd::Done))
        }
    }

    /// The end that the line has come to. Requests that have no slot are handed to the leader once more by the first seat, the leader is
    /// published, and then looks decide. `None` where the line may go on: a packet is left that may be delivered, or none is left and a
    /// server serves to which a write can be handed that has no slot, and that did not refuse it, unless it leads only since then. Where
    /// memory runs out (`NoMemory`, 1) it is not known.
    pub fn judge<R: Wait, G>(
        &mut self,
        rt: &R,
        line: &LiveLine<D, G>,
    ) -> Result<Option<LiveEnd>, NoMemory>
        requires { IsCrew line.now.group line.now.cell line.now.plan line.now.rings.items self.old }
        ensures judged { HasJudged line.now.group line.now.cell line.now.plan line.now.rings.items self.old self.new }
        ensures end { IfOk result (λ told. IsTrue (root_in line.now.group).told
            → IsJudged line.now.plan (root_in line.now.group) (seen_by self.old.seat) (seen_by self.new.seat) told) }
        ensures published { IfOk result (λ told. IsPublished (root_in line.now.group) (seen_by self.new.seat) self.new.first) }
        ensures submitted { IfOk result (λ told. AllSubmitted line.now.plan (root_in line.now.group) (seen_by self.new.seat) self.new.served.items) }
    {
        let found = self.leader(rt, line)?;
        let server = taker(found);
        self.hand_all(rt, line, server)?;
        let leader = self.publish(rt, line)?;
        if self.least_left(rt, line)?.is_some() {
            if self.made < line.plan.turns {
                return Ok(None);
            }
            return Ok(Some(LiveEnd::TurnsSpent));
        }
        self.judge_hosts(rt, line, leader, leads(leader, server))
    }
}

/// The server to which writes are handed: the leader, or any where none serves.
fn taker(leader: Option<(Term, ServerId)>) -> ServerId
    requires { IfSome leader (λ served. served.1 < 3) }
    ensures low { result < 3 }
    ensures served { IfSome leader (λ served. result ≡ served.1) }
{
    match leader {
        Some((_, server)) => server,
        None => 0,
    }
}

/// Whether this server is the leader.
fn leads(leader: Option<(Term, ServerId)>, server: ServerId) -> bool
    ensures { (result ≡ true) ↔ ((term : ℕ) × (leader ≡ Some (term, server))) }
{
    match leader {
        Some((_, leading)) => leading == server,
        None => false,
    }
}
