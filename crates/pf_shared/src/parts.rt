//! The shared group and its seats. They stand apart from the calls, since the words for seats name them.
use crate::{Behind, SeatMoment, SharedStart};
use pf_disk::Disk;
use pf_turn::{TurnLock, TurnSeat};

/// A group that callers take turns with.
#[derive(Drop)]
pub struct SharedGroup<D: Disk> {
    pub(crate) lock: TurnLock<SeatMoment, SharedStart<D>, Behind<D>>,
}

/// A caller's place at one shared group. A thread has a seat of its own.
#[derive(Drop)]
pub struct GroupSeat<D: Disk> {
    pub(crate) seat: TurnSeat<SeatMoment, SharedStart<D>, Behind<D>>,
}
