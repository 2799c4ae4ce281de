//! A server.
ghost use Rattle.std.specs.Prelude.{◌≡◌, true};
ghost use Rattle.std.proofs.Props.{props};
ghost use Rattle.pf_server.specs.Idle.{HasNoJob};

use crate::State;
use pf_server_restart::Seat;

/// One server: what it was made with, its records, and what it is in.
#[derive(Drop)]
pub struct Server<S> {
    pub seat: Seat,
    pub store: S,
    pub state: State,
    /// A claim found nothing, and no event has come since: all three servers are asked for jobs after each event, and one alone can have any.
    pub idle: bool,
    ghost no_job: { idle ≡ true → HasNoJob state } by { Prim.hlevel props },
}
