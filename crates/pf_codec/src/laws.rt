//! Laws of spellings.
ghost use Rattle.std.specs.Prelude.{◌≡◌, ℕ, List, ◌++◌, ◌<◌, ◌^◌, length};
ghost use Rattle.pf_entry.specs.Canonical.{Bounds, IsCanonicalRecord};
ghost use Rattle.pf_entry.specs.Sizes.{body_size};
ghost use Rattle.pf_entry.specs.declared.records.Record.{Record};
ghost use Rattle.pf_codec.specs.Parsers.{IsExact};
ghost use Rattle.pf_codec.specs.Fitting.{IsEntry, IsVote, AreApplied, IsChunk, RecordFits};
ghost use Rattle.pf_codec.specs.Spelling.{entry_bytes, vote_bytes, slots_bytes, sectors_bytes, body_bytes};
ghost use Rattle.pf_codec.specs.Reading.{entry_at, vote_at, slots_at, sectors_at};

/// What the readers find is what is spelled, and they find it wherever it is spelled, whatever follows: so no spelling
/// begins with another one, and no two values have the same.
pub fn parts_are_exact()
    ensures entry { (bounds : Bounds) → IsExact (IsEntry bounds) entry_bytes (entry_at bounds) }
    ensures vote { (bounds : Bounds) → bounds.window < 2 ^ 32 → IsExact (IsVote bounds) vote_bytes (vote_at bounds) }
    ensures slots { (base : ℕ) → IsExact (AreApplied base) slots_bytes (slots_at base) }
    ensures sectors { IsExact IsChunk sectors_bytes sectors_at }
{}

/// The body of a record tells the record, and ends by itself: no body begins with another one.
pub fn bodies_tell_their_records()
    ensures record_is { (r s : Record) (x y : List ℕ) → RecordFits r → RecordFits s → IsCanonicalRecord 2 r → IsCanonicalRecord 2 s
        → body_bytes r ++ x ≡ body_bytes s ++ y → r ≡ s }
    ensures rest_is { (r s : Record) (x y : List ℕ) → RecordFits r → RecordFits s → IsCanonicalRecord 2 r → IsCanonicalRecord 2 s
        → body_bytes r ++ x ≡ body_bytes s ++ y → x ≡ y }
{}

/// A body has as many bytes as its size says.
pub fn bodies_have_their_sizes()
    ensures { (r : Record) → IsCanonicalRecord 2 r → length (body_bytes r) ≡ body_size r }
{}

/// What has a spelling in the first format has one in the second, and it is the same.
pub fn second_format_has_the_first()
    ensures { (r : Record) → IsCanonicalRecord 1 r → IsCanonicalRecord 2 r }
{}
