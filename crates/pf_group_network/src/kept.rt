//! What a network keeps beside its servers.
ghost use Rattle.std.specs.Prelude.{◌≡◌, is_some};
ghost use Rattle.pf_group_network.specs.Readings.{answer_in, is_reading_waiting, without_answer};

use pf_base::{Data, Slot, Term};
use pf_codec::Spelled;
use std::mem::replace;

/// A packet, spelled as it was sent.
#[derive(Drop)]
pub struct Parcel {
    pub bytes: Spelled,
    pub delivered: bool,
    pub lost: bool,
}

/// The leader of this term told the host that the slot is committed.
#[derive(Clone, Copy, Debug, PartialEq, Eq)]
pub struct Acked {
    pub term: Term,
    pub slot: Slot,
}

/// What is known of a read.
#[derive(Debug, Drop)]
pub enum Reading {
    /// It has no answer.
    Waiting,
    /// Its answer: the sectors of its range.
    Answered(Data),
    /// Its answer was taken out.
    Taken,
}

impl Reading {
    /// Whether it has no answer.
    pub(crate) fn waits(&self) -> bool
        ensures { result ≡ is_reading_waiting self.now }
    {
        match self {
            Reading::Waiting => true,
            Reading::Answered(_) | Reading::Taken => false,
        }
    }

    /// Whether there is an answer to be taken out.
    pub(crate) fn has_answer(&self) -> bool
        ensures { result ≡ is_some (answer_in self.now) }
    {
        match self {
            Reading::Answered(_) => true,
            Reading::Waiting | Reading::Taken => false,
        }
    }

    /// Takes the answer out, where one is there.
    pub(crate) fn take(&mut self) -> Option<Data>
        ensures answer { result ≡ answer_in self.old }
        ensures left { self.new ≡ without_answer self.old }
    {
        match replace(self, Reading::Taken) {
            Reading::Answered(sectors) => Some(sectors),
            other => {
                *self = other;
                None
            }
        }
    }
}
