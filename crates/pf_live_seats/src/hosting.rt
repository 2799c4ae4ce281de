//! The workers that put the requests of hosts into their rings.
ghost use Rattle.std.specs.Prelude.{◌≡◌, ◌⊎◌, ◌+◌, ◌<◌, true, false, length, if◌then◌else◌};
ghost use Rattle.pf_rings.specs.Counted.{Called};
ghost use Rattle.pf_rings.specs.Passes.{seen_by_server, taken_by};
ghost use Rattle.pf_rings.specs.declared.count.RingCall.TheVariants as calls;
ghost use Rattle.pf_live_seats.specs.Writes.{IsHost, IsHostIn, PutsOnce, request_of};

use crate::line::{HostRings, LiveLine};
use crate::plan::LinePlan;
use pf_base::Range;
use pf_disk::Disk;
use pf_group_copy::Gate;
use pf_live_crew::Turned;
use pf_rings::{Empty, Full, Request, RingPass};
use std::sync::Wait;

/// The number that the gate is told of host 0. Each other host has one more.
const FIRST_HOST: u32 = 100;

/// The worker that puts one host's requests into its ring, each once the one before was acknowledged.
#[derive(Drop)]
pub struct HostSeat {
    /// The host's pass of its ring of requests.
    pub pass: RingPass,
    /// The pass that takes from its ring of answers.
    pub answers: RingPass,
    pub host: u32,
    /// How many requests it put.
    pub next: u32,
    /// How many of them it was told to be acknowledged.
    pub acked: u32,
}

impl LinePlan {
    /// The request of this number of the host: one sector, filled with the host's byte.
    fn request(&self, host: u32, number: u32) -> Request
        requires host { host < self.now.hosts }
        requires number { number < self.now.writes }
        ensures { result ≡ request_of self.now.sectors host number }
    {
        let Ok(range) = Range::new((host + number) % self.sectors, 1) else {
            unreachable!()
        };
        Request {
            host,
            number,
            range,
            byte: b'A' + host as u8,
        }
    }
}

impl HostSeat {
    /// Whether each request that it put was acknowledged: it takes the answer to the last one, if it has not yet. If it is not told so, no
    /// answer stood in its ring.
    fn is_answered<R: Wait>(&mut self, rt: &R, rings: &HostRings, _plan: &LinePlan) -> bool
        requires { IsHost _plan.now rings.now self.old }
        ensures is { IsHost _plan.now rings.now self.new }
        ensures same { (self.new.host ≡ self.old.host) × (self.new.next ≡ self.old.next) }
        ensures answered { result ≡ true → length (taken_by self.new.answers) ≡ self.new.next }
        ensures empty { result ≡ false → Called false (seen_by_server self.old.answers) calls.Empty (seen_by_server self.new.answers) }
    {
        if self.acked == self.next {
            return true;
        }
        match rings.answers.take(rt, &mut self.answers) {
            Ok(_) => {
                self.acked += 1;
                true
            }
            Err(Empty) => false,
        }
    }

    /// Puts its next request, unless the ring is full. Whether it did.
    fn put<R: Wait>(&mut self, rt: &R, rings: &HostRings, plan: &LinePlan) -> bool
        requires is { IsHost plan.now rings.now self.old }
        requires more { self.old.next < plan.now.writes }
        requires answered { length (taken_by self.old.answers) ≡ self.old.next }
        ensures is { IsHost plan.now rings.now self.new }
        ensures same { (self.new.host ≡ self.old.host) × (self.new.answers ≡ self.old.answers) }
        ensures next { self.new.next ≡ (if result then self.old.next + 1 else self.old.next) }
    {
        let request = plan.request(self.host, self.next);
        match rings.requests.put(rt, &mut self.pass, request) {
            Ok(()) => {
                self.next += 1;
                true
            }
            Err((_, Full)) => false,
        }
    }

    /// One turn. It ends where it put all its requests, or where all are to end; it waits while it is not told that the request that it put
    /// last is acknowledged, or its ring is full.
    pub fn work<R: Wait, D: Disk, G: Gate>(&mut self, rt: &R, line: &LiveLine<D, G>) -> Turned
        requires { IsHostIn line.now.plan line.now.rings.items self.old }
        ensures is { IsHostIn line.now.plan line.now.rings.items self.new }
        ensures host { self.new.host ≡ self.old.host }
        ensures once { (self.new.next ≡ self.old.next) ⊎ PutsOnce self.old self.new }
    {
        if self.next >= line.plan.writes || line.is_stopping() {
            return Turned::Ends;
        }
        let Some(rings) = line.rings.get(self.host as usize) else {
            return Turned::Ends;
        };
        if !self.is_answered(rt, rings, &line.plan) {
            return Turned::Waits;
        }
        self.put_next(rt, line, rings)
    }

    /// Puts its next request, once all before it were answered, between the calls of the gate, unless its ring is full.
    fn put_next<R: Wait, D: Disk, G: Gate>(
        &mut self,
        rt: &R,
        line: &LiveLine<D, G>,
        rings: &HostRings,
    ) -> Turned
        requires is { IsHost line.now.plan rings.now self.old }
        requires more { self.old.next < line.now.plan.writes }
        requires answered { length (taken_by self.old.answers) ≡ self.old.next }
        ensures is { IsHost line.now.plan rings.now self.new }
        ensures same { (self.new.host ≡ self.old.host) × (self.new.answers ≡ self.old.answers) }
        ensures next { (self.new.next ≡ self.old.next) ⊎ (self.new.next ≡ self.old.next + 1) }
    {
        let number = FIRST_HOST + self.host;
        line.gate.before(number);
        let put = self.put(rt, rings, &line.plan);
        line.gate.after(number);
        if !put {
            return Turned::Waits;
        }
        line.bells.submitter.ring();
        Turned::Went
    }

    /// Sleeps until it may be told that a request is acknowledged, unless it was called since it had been called so often. How often it
    /// was called now.
    pub fn rest<R: Wait, D: Disk, G>(&self, rt: &R, line: &LiveLine<D, G>, heard: u64) -> u64 {
        match line.rings.get(self.host as usize) {
            Some(rings) => rings.bell.rest(rt, heard),
            None => heard,
        }
    }
}
