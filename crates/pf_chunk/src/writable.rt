//! A range that a write or a read may name.
ghost use Rattle.std.specs.Prelude.{◌≡◌, ◌↔◌, IsOk, IfOk};
ghost use Rattle.pf_base.specs.Span.{IsWritable};

use pf_base::{BadRange, Range};
use std::marker::Model;

/// What a write or a read may name in some chunk: 1 to 8 consecutive sectors below 4,096. That they are so is judged where the range is
/// made, and nowhere else; whether they lie in a chunk is another question, which the chunk's group asks.
#[derive(Clone, Copy, Debug, PartialEq, Eq)]
pub struct WritableRange {
    range: Range,
}

impl Model for WritableRange {
    ghost use Rattle.pf_base.specs.Span.{IsWritable, Span};

    ghost Value = { Span };

    ghost view = { λ w. w.range };

    ghost invariant = { λ w. IsWritable w.range.first w.range.count };

    ghost inverse = { λ span. record { range = span } };
}

impl WritableRange {
    /// The range of `count` sectors from sector `first` on. `BadRange` (10) exactly where these are not 1 to 8 sectors below 4,096.
    pub fn new(first: u32, count: u32) -> Result<WritableRange, BadRange>
        ensures exact { IsOk result ↔ IsWritable first count }
        ensures range { IfOk result (λ range. range ≡ record { first = first; count = count }) }
    {
        match Range::new(first, count) {
            Ok(range) => Ok(WritableRange { range }),
            Err(fault) => Err(fault),
        }
    }

    /// The range itself.
    pub fn range(&self) -> Range
        ensures same { result ≡ self.now }
        ensures writable { IsWritable result.first result.count }
    {
        self.range
    }
}
