//! Events of which one turn tells more than the answer.
ghost use Rattle.std.specs.Prelude.{◌<◌, IfOk, OnErr};
ghost use Rattle.pf_protocol.specs.Answers.{IsSubmitted};
ghost use Rattle.pf_entry.specs.declared.ops.Op.TheVariants.{Write};
ghost use Rattle.pf_shared.specs.Calls.{Finds, IsHistory};
ghost use Rattle.pf_shared.specs.Delivering.{DeliversLeft};
ghost use Rattle.pf_shared.specs.Submitting.{HasSubmitted};
ghost use Rattle.pf_shared.specs.Seats.{IsAlone, IsSameSeat, IsSeatOf, number_of, root_in, seen_by};

use crate::{GroupSeat, SharedGroup};
use pf_base::{NoMemory, Payload, Range, ServerId, Term};
use pf_disk::Disk;
use pf_group_rounds::pf_group::{Down, GroupEvent};
use pf_protocol::Answer;
use std::alloc::Global;
use std::sync::Wait;

impl<D: Disk + Drop> SharedGroup<D> {
    /// Delivers the least packet from `from` on that is left, and tells its number and the answer. `None` exactly where none is left,
    /// which is a look. `NoMemory` (1) is no entry. It is one turn: in two, another seat could deliver in between.
    pub fn deliver_left<R: Wait>(
        &self,
        rt: &R,
        alloc: Global,
        seat: &mut GroupSeat<D>,
        from: u32,
    ) -> Result<Option<(u32, Answer)>, NoMemory>
        requires { IsSeatOf self.now seat.old }
        ensures seat { IsSeatOf self.now seat.new × IsSameSeat seat.old seat.new }
        ensures delivers { IfOk result (λ told. DeliversLeft (root_in self.now) (number_of seat.old) (IsAlone seat.old) (seen_by seat.old) from told
            (seen_by seat.new)) }
        ensures err { OnErr result (Finds (number_of seat.old) (IsAlone seat.old) (seen_by seat.old) (seen_by seat.new)) }
        ensures history { IsHistory (root_in self.now) (seen_by seat.new) }
    {
        let turn = self.begin(rt, seat);
        let Some(k) = turn.value.least_from(from) else {
            self.end_look(seat, turn, Ok(()))?;
            return Ok(None);
        };
        let answer = self.act(alloc, seat, turn, GroupEvent::Deliver(k))?;
        Ok(Some((k, answer)))
    }

    /// Hands a write to a server, and tells the term that it had, or that it does not run, beside the answer. A refusal is an answer;
    /// `NoMemory` (1) is no entry.
    pub fn submit<R: Wait>(
        &self,
        rt: &R,
        alloc: Global,
        seat: &mut GroupSeat<D>,
        server: ServerId,
        range: Range,
        payload: Payload,
    ) -> Result<(Result<Term, Down>, Answer), NoMemory>
        requires seat { IsSeatOf self.now seat.old }
        requires server { server < 3 }
        requires write { IsSubmitted (Write range payload) }
        ensures seat { IsSeatOf self.now seat.new × IsSameSeat seat.old seat.new }
        ensures submits { IfOk result (λ told. HasSubmitted (root_in self.now) (number_of seat.old) (IsAlone seat.old) (seen_by seat.old) server
            (Write range payload) told (seen_by seat.new)) }
        ensures err { OnErr result (Finds (number_of seat.old) (IsAlone seat.old) (seen_by seat.old) (seen_by seat.new)) }
        ensures history { IsHistory (root_in self.now) (seen_by seat.new) }
    {
        let turn = self.begin(rt, seat);
        let term = turn.value.group.term_of(server);
        let event = GroupEvent::Submit {
            server,
            range,
            payload,
        };
        let answer = self.act(alloc, seat, turn, event)?;
        Ok((term, answer))
    }
}
