//! The making of a server, in two steps: first all its memory, then its disks.
ghost use Rattle.std.specs.Prelude.{◌≡◌, ◌≤◌, ◌⊎◌, ◌&&◌, [], IfOk, is_some};
ghost use Rattle.pf_disk.specs.Causes.{Rose};
ghost use Rattle.pf_protocol.specs.Servers.{Setup, Running as RunningIs};
ghost use Rattle.pf_disk_store.specs.Faults.{faults_of};
ghost use Rattle.pf_disk_store.specs.Kept.{tells};
ghost use Rattle.pf_server_restart.specs.Beginning.{IsSeat, setup_of_seat};
ghost use Rattle.pf_server.specs.Conditions.{Meets, untaken_answers};
ghost use Rattle.pf_server_format.specs.Opening.{first_body, head_of, opening_server, seat_in};

use crate::fresh::fresh;
use pf_base::NoMemory;
use pf_disk::Disk;
use pf_disk_store::Kept;
use pf_protocol::{Answer, Refusal};
use pf_server::{Server, State};
use pf_server_memory::Running;
use pf_server_restart::Seat;
use pf_server_store::{DiskFault, Store};
use std::alloc::Global;
use std::marker::Model;

/// All the memory that the making of a server needs, but for its first record.
#[derive(Drop)]
pub struct ServerRoom {
    group: u8,
    seat: Seat,
    me: Running,
}

impl Model for ServerRoom {
    ghost use Rattle.pf_server_format.specs.Rooms.{IsRoom, ServerPlace};

    ghost Value = { ServerPlace };

    ghost view = { λ r. record { group = r.group; seat = r.seat } };

    ghost invariant = { λ r. IsRoom r.seat r.me };
}

/// What both halves of a server begin with, but for their own numbers.
fn head_of(group: u8, seat: &Seat) -> [u8; 7]
    ensures { result ≡ head_of group seat.now }
{
    [b'P', b'F', b'C', b'L', seat.format, group, seat.number]
}

impl ServerRoom {
    /// Takes the memory of a server with this seat in the group of this number. `NoMemory` (1) where there is none for it.
    pub fn new(alloc: Global, group: u8, seat: Seat) -> Result<ServerRoom, NoMemory>
        requires { IsSeat seat }
        ensures { IfOk result (λ room. room ≡ record { group = group; seat = seat }) }
    {
        let me = fresh(alloc, &seat)?;
        Ok(ServerRoom { group, seat, me })
    }

    /// Makes the server on two disks, whatever they held: half 0 begins with this first record, and half 1 is empty. It takes no
    /// memory. The answer is `Done`, and the server runs in the opening state of its group; or `Halted` (52) where a disk failed,
    /// and it never runs.
    pub fn open<D: Disk>(self, image: &[u8], a: D, b: D) -> (Server<Kept<D>>, Answer)
        requires { image.now ≡ first_body (setup_of_seat self.seat) }
        ensures outcome { (result.1 ≡ Answer.Done) ⊎ (result.1 ≡ Answer.Refused Refusal.Halted) }
        ensures opened { result.1 ≡ Answer.Done → (setup : Setup) → self.seat ≡ seat_in setup self.seat.number
            → Meets ⟦<Kept<D> as Store>⟧.model result.0.seat result.0.store result.0.state (RunningIs (opening_server setup self.seat.number)) }
        ensures halted { result.1 ≡ Answer.Refused Refusal.Halted → result.0.state ≡ State.Unformatted }
        ensures failed { result.1 ≡ Answer.Refused Refusal.Halted
            → Rose (D.faults a) (faults_of D.faults result.0.store).0 ⊎ Rose (D.faults b) (faults_of D.faults result.0.store).1 }
        ensures later { (D.faults a ≤ (faults_of D.faults result.0.store).0) × (D.faults b ≤ (faults_of D.faults result.0.store).1) }
        ensures seat { result.0.seat ≡ self.seat }
        ensures answers { untaken_answers result.0.state ≡ [] }
        ensures head { result.0.store.pair.head ≡ head_of self.group self.seat }
        ensures told { tells D.seen result.0.store.pair ≡ (is_some (D.seen a) && is_some (D.seen b)) }
    {
        let ServerRoom { group, seat, me } = self;
        let head = head_of(group, &seat);
        match Kept::new(a, b, head, image) {
            Ok(store) => (
                Server {
                    seat,
                    store,
                    state: State::Runs(me),
                    idle: false,
                },
                Answer::Done,
            ),
            Err((a, b, DiskFault)) => (
                Server {
                    seat,
                    store: Kept::unread(a, b, head),
                    state: State::Unformatted,
                    idle: false,
                },
                Answer::Refused(Refusal::Halted),
            ),
        }
    }
}
