//! A range of sectors in a chunk.
ghost use Rattle.std.specs.Prelude.{◌≡◌, ◌↔◌, IsTrue, IsOk, IfOk};
ghost use Rattle.pf_base.specs.Span.{Overlap, IsWritable, overlaps, fits_in, is_span, empty_span, whole_span};

use crate::BadRange;
use std::marker::Model;

/// The count that stands for the whole chunk.
const WHOLE: u32 = 255;

/// Up to eight consecutive sectors below 4,096, or the whole chunk.
///
/// A log entry orders its op against others by such a range (PolarFS, look-behind lists): a write has the range
/// of its sectors, a no-op the empty one, a mark the whole chunk.
#[derive(Clone, Copy, Debug, PartialEq, Eq)]
pub struct Range {
    first: u32,
    count: u32,
}

impl Model for Range {
    ghost use Rattle.std.specs.Prelude.{IsTrue};
    ghost use Rattle.pf_base.specs.Span.{Span, is_span};

    ghost Value = { Span };

    ghost view = { λ r. record { first = r.first; count = r.count } };

    ghost invariant = { λ r. IsTrue (is_span (record { first = r.first; count = r.count })) };

    ghost inverse = { λ span. record { first = span.first; count = span.count } };
}

impl Range {
    /// The range of `count` sectors from sector `first` on, where these are 1 to 8 sectors below 4,096.
    /// Any other numbers are `BadRange` (10).
    pub fn new(first: u32, count: u32) -> Result<Range, BadRange>
        ensures exact { IsOk result ↔ IsWritable first count }
        ensures range { IfOk result (λ range. range ≡ record { first = first; count = count }) }
    {
        if count == 0 || count > 8 || first > 4096 - count {
            return Err(BadRange);
        }
        Ok(Range { first, count })
    }

    /// The empty range.
    pub fn none() -> Range
        ensures { result ≡ empty_span }
    {
        Range { first: 0, count: 0 }
    }

    /// The whole chunk, however many sectors it has.
    pub fn all() -> Range
        ensures { result ≡ whole_span }
    {
        Range {
            first: 0,
            count: WHOLE,
        }
    }

    /// The first sector; 0 for the empty range and for the whole chunk.
    pub fn first(&self) -> u32
        ensures { result ≡ self.now.first }
    {
        self.first
    }

    /// The count of sectors; 255 stands for the whole chunk.
    pub fn count(&self) -> u32
        ensures { result ≡ self.now.count }
    {
        self.count
    }

    /// Whether the range lies in a chunk of so many sectors. The whole chunk fits every chunk.
    pub fn fits(&self, sectors: u32) -> bool
        ensures { result ≡ fits_in self.now sectors }
    {
        self.count == WHOLE || self.first + self.count <= sectors
    }

    /// Whether some sector lies in both ranges.
    #[tactic(auto, using(crate::proofs::Spans::shares))]
    pub fn overlaps(&self, other: &Range) -> bool
        ensures test { result ≡ overlaps self.now other.now }
        ensures shared { IsTrue result ↔ Overlap self.now other.now }
    {
        self.meets(other)
    }

    fn meets(&self, other: &Range) -> bool
        ensures { result ≡ overlaps self.now other.now }
    {
        self.count > 0
            && other.count > 0
            && (self.count == WHOLE
                || other.count == WHOLE
                || (self.first < other.first + other.count
                    && other.first < self.first + self.count))
    }
}
