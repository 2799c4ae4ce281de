//! How the turn of a server ends.
ghost use Rattle.std.specs.Prelude.{◌≡◌, ◌<◌, ◌≤◌, ℕ, Ok, vec_capacity, vec_len};
ghost use Rattle.pf_protocol.specs.Servers.{Setup};
ghost use Rattle.pf_protocol.specs.Outcomes.{Outcome};
ghost use Rattle.pf_protocol.specs.Groups.{Group, acted};
ghost use Rattle.pf_protocol.specs.Answers.{ServerTurn};
ghost use Rattle.pf_group_network.specs.AckedSlots.{AckedHasRoom};
ghost use Rattle.pf_group_network.specs.Going.{KeepsStores};
ghost use Rattle.pf_group_network.specs.Showing.{Shows, taken_of};
ghost use Rattle.pf_group_network.specs.Turned.{Ends, HasStepped, HasTurned, is_refused};

use crate::Network;
use crate::keeping::{keep_acked, keep_answers, keep_packets};
use pf_base::{NoMemory, ServerId};
use pf_protocol::{Answer, Refusal};
use pf_server_memory::Outbox;
use pf_server_store::Store;

/// Whether the answer is a refusal.
pub(crate) fn is_refused(answer: &Answer) -> bool
    ensures { result ≡ is_refused answer.now }
{
    match answer {
        Answer::Refused(_) => true,
        _ => false,
    }
}

impl<S: Store> Network<S> {
    /// Keeps what the step of a server sent, acknowledged and answered. It takes no memory.
    fn keep(&mut self, server: ServerId, out: &mut Outbox)
        requires place { AckedHasRoom self.old.acked.list self.old.acked.known }
        requires stepped { (setup : Setup) × ((grp : Group) × ((o : Outcome) × HasStepped S.model setup grp server o self.old out.old)) }
        ensures shows { (setup : Setup) (grp : Group) (o : Outcome) → HasStepped S.model setup grp server o self.old out.old
            → Shows S.model setup self.new (acted grp server o) }
        ensures elections { self.new.elections ≡ self.old.elections }
        ensures packets { vec_len self.old.packets ≤ vec_len self.new.packets }
        ensures stores { KeepsStores self.old self.new }
        ensures taken { taken_of self.new ≡ taken_of self.old }
    {
        let server = server as usize;
        keep_packets(&mut self.packets, &mut self.byte_room, out);
        keep_acked(&mut self.acked, &self.servers[server], out.acked());
        keep_answers(&mut self.servers[server], &mut self.readings);
    }

    /// Ends the turn of a server: what it sent, acknowledged and answered is kept, unless it was refused. It takes no memory.
    pub(crate) fn end(
        &mut self,
        server: ServerId,
        outcome: Result<Answer, NoMemory>,
        out: &mut Outbox,
    ) -> Result<Answer, NoMemory>
        requires { (setup : Setup) × ((grp : Group) × ((turn : ServerTurn) × HasTurned S.model setup grp server turn self.old out.old outcome)) }
        ensures same { result ≡ outcome }
        ensures step { (setup : Setup) (grp : Group) (turn : ServerTurn) → HasTurned S.model setup grp server turn self.old out.old outcome
            → Ends S.model setup grp server turn self.new outcome }
        ensures elections { self.new.elections ≡ self.old.elections }
        ensures packets { vec_len self.old.packets ≤ vec_len self.new.packets }
        ensures stores { KeepsStores self.old self.new }
        ensures taken { taken_of self.new ≡ taken_of self.old }
        ensures halted { outcome ≡ Ok (Answer.Refused Refusal.Halted) → self.new ≡ self.old }
    {
        let Ok(answer) = &outcome else {
            return outcome;
        };
        if !is_refused(answer) {
            self.keep(server, out);
        }
        outcome
    }
}
