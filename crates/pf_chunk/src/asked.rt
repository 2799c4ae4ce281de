//! What lines ask of a chunk.
ghost use Rattle.std.specs.Prelude.{◌≡◌};
ghost use Rattle.pf_chunk.specs.Asked.{fetch_ask, no_range_of, submit_ask};

use crate::WritableRange;
use pf_base::ServerId;
use pf_group_rounds::pf_group::GroupEvent;

/// What a line asks of a chunk.
#[derive(Drop)]
pub enum LineAsk {
    /// An event that reads nothing.
    Event(GroupEvent),
    /// To write the sectors of a range, all of one byte.
    Submit {
        server: ServerId,
        range: WritableRange,
        byte: u8,
    },
    /// To read the sectors of a range.
    Fetch {
        server: ServerId,
        range: WritableRange,
    },
    /// To write or read sectors that are no range: no event of the group. A server that runs answers `BadRange` (10), one that does not
    /// `Down` (51).
    NoRange(ServerId),
}

impl LineAsk {
    /// To write `count` sectors of one byte from `sector` on. Here, and nowhere else, it is judged whether these are a range: 1 to 8 sectors
    /// below 4,096; others are `NoRange`.
    pub fn submit(server: ServerId, sector: u32, byte: u8, count: u32) -> LineAsk
        ensures { result ≡ submit_ask server sector byte count }
    {
        match WritableRange::new(sector, count) {
            Ok(range) => LineAsk::Submit {
                server,
                range,
                byte,
            },
            Err(_) => LineAsk::NoRange(server),
        }
    }

    /// To read `count` sectors from `sector` on, judged as those of `submit`: others are `NoRange`.
    pub fn fetch(server: ServerId, sector: u32, count: u32) -> LineAsk
        ensures { result ≡ fetch_ask server sector count }
    {
        match WritableRange::new(sector, count) {
            Ok(range) => LineAsk::Fetch { server, range },
            Err(_) => LineAsk::NoRange(server),
        }
    }

    /// The server that is asked for sectors that are no range, if one is.
    pub fn no_range(&self) -> Option<ServerId>
        ensures { result ≡ no_range_of self.now }
    {
        match self {
            LineAsk::NoRange(server) => Some(*server),
            LineAsk::Event(_) | LineAsk::Submit { .. } | LineAsk::Fetch { .. } => None,
        }
    }
}
