//! Laws of the user's tree over a layout.
ghost use Rattle.std.specs.Prelude.{◌≡◌, ℕ, ◌<◌, ◌≤◌, ◌++◌, List, length, take};
ghost use Rattle.pf_volume.specs.Volumes.{Extent, IsVolume};
ghost use Rattle.pf_tree.specs.Standing.{TablesStandFor};
ghost use Rattle.pf_journal.specs.declared.layouts.Layout.{Layout};
ghost use Rattle.pf_law_calls.specs.Doings.{HaveRegisters, IsListOf};
ghost use Rattle.pf_law_calls.specs.Lives.{CanBe, MountTold, lives, tables_from};
ghost use Rattle.pf_law_plans.specs.Lists.{NamesEachOnce};
ghost use Rattle.pf_law_calls.specs.Lists.{StandsInList};
ghost use Rattle.pf_law_calls.specs.Spelled.{CanAllBeSpelled};
ghost use Rattle.pf_law_calls.specs.Trees.{AreFewCalls, data_blocks, tree_after};

/// After the first transactions of the list, however many, the tables stand for the user's tree after the calls that these name. So after any
/// part of what was told the tables of each mount stand for the tree after the transactions below its position.
pub fn tables_stand_for_trees()
    ensures list { (layout : Layout) (v : Extent) (told : List MountTold) (list : List (List ℕ)) → IsVolume v → CanBe layout v told
        → HaveRegisters layout v told → IsListOf layout v told list → CanAllBeSpelled told → AreFewCalls told → (n : ℕ) → n ≤ length list
        → TablesStandFor (data_blocks layout v) (tables_from v (take n list)) (tree_after layout v told (take n list)) }
    ensures mounts { (layout : Layout) (v : Extent) (told : List MountTold) (list : List (List ℕ)) → IsVolume v → CanBe layout v told
        → HaveRegisters layout v told → IsListOf layout v told list → CanAllBeSpelled told → AreFewCalls told → (before after : List MountTold) (m : ℕ)
        → told ≡ before ++ after → m < 16 → StandsInList layout v told list (lives layout v before m).mount }
{}

/// A call has at most one transaction: no two positions of the list have values that spell transactions of one call. Each mount is to begin
/// fewer calls than 2^32, since the spelling of a transaction has so many numbers.
pub fn calls_have_one_transaction()
    ensures { (layout : Layout) (v : Extent) (told : List MountTold) (list : List (List ℕ)) → CanBe layout v told → HaveRegisters layout v told
        → IsListOf layout v told list → AreFewCalls told → NamesEachOnce list }
{}
