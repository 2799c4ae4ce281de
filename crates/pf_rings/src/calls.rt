//! What a ring does.
ghost use Rattle.std.specs.Prelude.{◌≡◌, ◌+◌, ◌≤◌, [], ◌∷◌, ◌++◌, true, false, IfErr, IfOk, length, is_ok, if◌then◌else◌};
ghost use Rattle.crossbeam_queue.specs.Passes.{view, IsSamePass, IsPassOf};
ghost use Rattle.pf_rings.specs.Counted.{Called, CallsWentOn};
ghost use Rattle.pf_rings.specs.Relayed.{Begins, HasPut, RingHasTaken};
ghost use Rattle.pf_rings.specs.Passes.{put_by, taken_by, seen_by_host, seen_by_server, IsHostOf, IsServerOf};

use crate::count::{LookForPlace, LookForRequest, Lower, Raise, RingCall, SeeAll, Sides};
use crate::errors::{Empty, Full};
use crate::ring::{Ring, RingPass};
use crate::view::{Meet, Put, Request, RingView, Roles, Take};
use atomic_table::Table;
use crossbeam_queue::{Pass, RuledArrayQueue};
use pf_base::NoMemory;
use std::alloc::Global;
use std::sync::Wait;

/// How many requests a ring holds.
const ROOM: usize = 8;

impl Ring {
    /// An empty ring of the host, with the host's pass and the server thread's. `NoMemory` (1) where memory runs out.
    pub fn new(alloc: Global, host: u32) -> Result<(Ring, RingPass, RingPass), NoMemory>
        ensures passes { IfOk result (λ made. IsHostOf made.0 made.1 × IsServerOf made.0 made.2) }
        ensures of_host { IfOk result (λ made. made.0.host ≡ host) }
        ensures host { IfOk result (λ made. (put_by made.1 ≡ []) × (taken_by made.1 ≡ []) × (seen_by_host made.1 ≡ [])) }
        ensures server { IfOk result (λ made. (put_by made.2 ≡ []) × (taken_by made.2 ≡ []) × (seen_by_server made.2 ≡ [])) }
    {
        let (queue, mut puts) = RuledArrayQueue::ruled(alloc, ROOM)?;
        let takes = queue.another::<Roles>(&mut puts);
        let (count, mut host_seat) = Table::of_words(alloc, &[0], &())?;
        let server_seat = count.shared.split_seat::<Sides>(&mut host_seat);
        Ok((
            Ring { host, queue, count },
            RingPass {
                pass: puts,
                seat: host_seat,
            },
            RingPass {
                pass: takes,
                seat: server_seat,
            },
        ))
    }

    /// Hands a request over. It comes back, as `Full` (62), only where eight stand in the ring at the call's own step: among the calls of
    /// both sides one after another this one comes behind all that the host has seen, the server thread's with them, and finds eight
    /// there. May wait for calls of other threads.
    pub fn put<R: Wait>(
        &self,
        rt: &R,
        pass: &mut RingPass,
        request: Request,
    ) -> Result<(), (Request, Full)>
        requires { IsHostOf self.now pass.old }
        ensures pass { IsHostOf self.now pass.new × (taken_by pass.new ≡ taken_by pass.old) }
        ensures called { Called true (seen_by_host pass.old) (if is_ok result then RingCall.Put else RingCall.Full) (seen_by_host pass.new) }
        ensures put { IfOk result (λ _. put_by pass.new ≡ put_by pass.old ++ request ∷ []) }
        ensures back { IfErr result (λ refused. (refused.0 ≡ request) × (put_by pass.new ≡ put_by pass.old)) }
        ensures full { IfErr result (λ _. length (taken_by pass.old) + 8 ≤ length (put_by pass.old)) }
    {
        let count = &self.count.shared;
        if count.load::<LookForPlace>(&mut pass.seat, 0) == ROOM as u64 {
            return Err((request, Full));
        }
        self.push(rt, &mut pass.pass, request);
        count.fetch_add::<Raise>(&mut pass.seat, 0, 1);
        Ok(())
    }

    /// Puts a request into the queue, once it has a place.
    fn push<R: Wait>(&self, rt: &R, pass: &mut Pass<Request, RingView>, request: Request)
        requires { IsPassOf self.now.queue pass.old × ((view pass.old).puts ≡ true) }
        ensures { IsSamePass pass.old pass.new × HasPut (view pass.old) request (view pass.new) }
    {
        let mut request = request;
        for _ in rt.forever() {
            match self.queue.push_as::<Put, R>(rt, pass, request) {
                Ok(()) => return,
                Err(back) => request = back,
            }
        }
        unreachable!()
    }

    /// The host's next request. There is none, as `Empty` (63), only where none stands in the ring at the call's own step: among the
    /// calls of both sides one after another this one comes behind all that the server thread has seen, the host's with them, and finds
    /// none there. May wait for calls of other threads.
    pub fn take<R: Wait>(&self, rt: &R, pass: &mut RingPass) -> Result<Request, Empty>
        requires { IsServerOf self.now pass.old }
        ensures pass { IsServerOf self.now pass.new × (put_by pass.new ≡ put_by pass.old) }
        ensures called { Called false (seen_by_server pass.old) (if is_ok result then RingCall.Take else RingCall.Empty) (seen_by_server pass.new) }
        ensures next { IfOk result (λ request. taken_by pass.new ≡ taken_by pass.old ++ request ∷ []) }
        ensures empty { IfErr result (λ _. (taken_by pass.new ≡ taken_by pass.old) × Begins (put_by pass.old) (taken_by pass.old)) }
    {
        let count = &self.count.shared;
        if count.load::<LookForRequest>(&mut pass.seat, 0) == 0 {
            return Err(Empty);
        }
        let request = self.pop(rt, &mut pass.pass);
        count.fetch_sub::<Lower>(&mut pass.seat, 0, 1);
        Ok(request)
    }

    /// Takes the first request out of the queue, once there is one.
    fn pop<R: Wait>(&self, rt: &R, pass: &mut Pass<Request, RingView>) -> Request
        requires { IsPassOf self.now.queue pass.old × ((view pass.old).takes ≡ true) }
        ensures { IsSamePass pass.old pass.new × RingHasTaken (view pass.old) result (view pass.new) }
    {
        for _ in rt.forever() {
            if let Some(request) = self.queue.pop_as::<Take, R>(rt, pass) {
                return request;
            }
        }
        unreachable!()
    }

    /// The two passes tell each other their lists, of which the server thread's begins the host's and lacks eight
    /// requests at most, and see all calls. Takes no memory.
    pub fn meet(&self, host: RingPass, server: RingPass) -> (RingPass, RingPass)
        requires { IsHostOf self.now host × IsServerOf self.now server }
        ensures passes { IsHostOf self.now result.0 × IsServerOf self.now result.1 }
        ensures host { (put_by result.0 ≡ put_by host) × (taken_by result.0 ≡ taken_by server) }
        ensures server { (put_by result.1 ≡ put_by host) × (taken_by result.1 ≡ taken_by server) }
        ensures calls { (seen_by_host result.0 ≡ seen_by_server result.1) × CallsWentOn true (seen_by_host host) (seen_by_host result.0)
            × CallsWentOn false (seen_by_server server) (seen_by_host result.0) }
        ensures order { Begins (taken_by server) (put_by host) }
        ensures within { length (put_by host) ≤ length (taken_by server) + 8 }
    {
        let RingPass {
            pass: mut both,
            seat: mut seat,
        } = host;
        let RingPass {
            pass: theirs,
            seat: their_seat,
        } = server;
        self.queue.absorb::<Roles>(&mut both, theirs);
        self.queue.learn_as::<Meet>(&mut both);
        let server = self.queue.another::<Roles>(&mut both);
        let count = &self.count.shared;
        count.join_seat::<Sides>(&mut seat, their_seat);
        count.load::<SeeAll>(&mut seat, 0);
        let server_seat = count.split_seat::<Sides>(&mut seat);
        (
            RingPass { pass: both, seat },
            RingPass {
                pass: server,
                seat: server_seat,
            },
        )
    }
}
