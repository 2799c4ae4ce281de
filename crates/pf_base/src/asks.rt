//! What a client asks of a chunk, and what it is answered.
ghost use Rattle.std.specs.Prelude.{◌≡◌};
ghost use Rattle.pf_base.specs.Asks.{chunk_of, span_of};

use crate::{Data, Payload, Range};

/// One read or write of sectors of a chunk.
///
/// An ask is valid where its range is one that `Range::new` gives, and a write has as many sectors as the range.
#[derive(Drop)]
pub enum Ask {
    /// These sectors are to be written.
    Write {
        chunk: u8,
        range: Range,
        payload: Payload,
    },
    /// The sectors of this range are to be read.
    Read {
        chunk: u8,
        range: Range,
    },
}

impl Ask {
    /// The chunk, counted from 0.
    pub fn chunk(&self) -> u8
        ensures { result ≡ chunk_of self.now }
    {
        match self {
            Ask::Write { chunk, .. } => *chunk,
            Ask::Read { chunk, .. } => *chunk,
        }
    }

    /// The range of its sectors.
    pub fn range(&self) -> Range
        ensures { result ≡ span_of self.now }
    {
        match self {
            Ask::Write { range, .. } => *range,
            Ask::Read { range, .. } => *range,
        }
    }
}

/// The answer to an ask.
#[derive(Debug, Drop)]
pub enum Reply {
    /// The sectors are written.
    Written,
    /// The sectors that were read.
    Bytes(Data),
}
