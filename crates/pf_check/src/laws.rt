//! Laws of the tables that transactions make, and of verdicts on them.
ghost use Rattle.pf_tree_tables.specs.declared.changes.Change.{Change};
ghost use Rattle.pf_check.specs.Raw.{IsRaw, RawTables, after_change, empty_tables, tables_made};
ghost use Rattle.pf_check.specs.Changing.{ChangeDoes, TablesAreEmpty, ChangeIsPlaced};
ghost use Rattle.pf_check.specs.declared.judging.Verdict.{Verdict};
ghost use Rattle.pf_check.specs.Verdicts.{IsRight};
ghost use Rattle.std.specs.Prelude.{◌≡◌, List};

/// The empty tables have the root and nothing else. Each change sets or removes exactly what it names, in whatever tables transactions
/// made, and makes such tables again.
pub fn changes_do_what_they_name()
    ensures empty { TablesAreEmpty empty_tables }
    ensures does { (t : RawTables) (change : Change) → IsRaw t → ChangeIsPlaced change → ChangeDoes t change (after_change t change) }
    ensures made { (changes : List Change) → IsRaw (tables_made empty_tables changes) }
{}

/// Two right verdicts on the same tables are the same one.
pub fn verdicts_are_alike()
    ensures { (t : RawTables) (one other : Verdict) → IsRight t one → IsRight t other → one ≡ other }
{}
