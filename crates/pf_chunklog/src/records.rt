//! Records as a log hands them out, and what was read of a half.
ghost use Rattle.std.specs.Prelude.{◌≡◌, ◌<◌, ◌≤◌, [], MatchOption, get_or, length};
ghost use Rattle.std.specs.List.{All};
ghost use Rattle.pf_chunklog.specs.Marks.{MarkIsWithin, raws_at};

use pf_base::{Piece, Shared};
use std::marker::Model;

/// Where a record stands in the bytes of its file: its kind, and the range of its payload.
#[derive(Clone, Copy, Debug)]
pub struct Mark {
    pub kind: u8,
    pub from: usize,
    pub to: usize,
}

/// The records of a half in their order, each a kind and the bytes of its payload. They are ranges of the bytes of the file,
/// which are kept whole as long as one of them is shared.
#[derive(Drop)]
pub struct RawRecords {
    file: Shared,
    marks: Vec<Mark>,
}

impl Model for RawRecords {
    ghost use Rattle.std.specs.Prelude.{List, length};
    ghost use Rattle.std.specs.List.{All};
    ghost use Rattle.pf_chunklog.specs.Records.{Raw};
    ghost use Rattle.pf_chunklog.specs.Marks.{MarkIsWithin, raws_at};

    ghost Value = { List Raw };

    ghost view = { λ r. raws_at r.file r.marks.items };

    ghost invariant = { λ r. All (MarkIsWithin (length r.file)) r.marks.items };
}

impl RawRecords {
    /// The records that stand there in a file. This takes no memory.
    pub(crate) fn new(file: Shared, marks: Vec<Mark>) -> RawRecords
        requires { All (MarkIsWithin (length file)) marks.items }
        ensures { result ≡ raws_at file marks.items }
    {
        RawRecords { file, marks }
    }

    /// The count of records.
    pub fn len(&self) -> usize
        ensures { result ≡ length self.now }
    {
        self.marks.len()
    }

    /// The kind and the payload of the record at this place; `None` where there are no more than so many.
    pub fn get(&self, k: usize) -> Option<(u8, &[u8])>
        ensures { MatchOption result (length self.now ≤ k) (λ raw. (k < length self.now) × ((raw.0, raw.1.now) ≡ get_or self.now k (0, []))) }
    {
        match self.marks.get(k) {
            Some(mark) => Some((mark.kind, &self.file.as_slice()[mark.from..mark.to])),
            None => None,
        }
    }

    /// The record of this number, with its payload as a part of the file's bytes, which can be shared.
    pub fn piece(&self, k: usize) -> Option<(u8, Piece<'_>)>
        ensures { MatchOption result (length self.now ≤ k) (λ raw. (k < length self.now) × ((raw.0, raw.1) ≡ get_or self.now k (0, []))) }
    {
        match self.marks.get(k) {
            Some(mark) => Some((mark.kind, Piece::new(&self.file, mark.from, mark.to))),
            None => None,
        }
    }
}

/// What was read of a half.
#[derive(Drop)]
pub struct Opened {
    /// The head that it begins with.
    pub head: [u8; 8],
    /// How many bytes are used, up to and with the closed gate that ends the records.
    pub used: u64,
    pub records: RawRecords,
}
