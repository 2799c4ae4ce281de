//! Laws of paths as words.
ghost use Rattle.std.specs.Prelude.{◌≡◌, ◌≢◌, ◌↔◌, ℕ, List, [], ◌∷◌, ◌++◌, AllPairs, IsTrue};
ghost use Rattle.pf_base.specs.declared.calls.Call.{Call};
ghost use Rattle.pf_tree_tables.specs.Names.{Path, is_name_before};
ghost use Rattle.pf_tree.specs.Calls.{FileCall};
ghost use Rattle.pf_tree.specs.declared.listing.Listed.{Listed};
ghost use Rattle.pf_tree.specs.Listings.{Lists};
ghost use Rattle.pf_tree.specs.Paths.{below, path_bytes};
ghost use Rattle.pf_tree.specs.Standing.{IsMap};
ghost use Rattle.pf_tree.specs.Trees.{Tree, has_rest};
ghost use Rattle.pf_layout.specs.Calls.{IsReadAs};
ghost use Rattle.pf_layout.specs.Paths.{HasNames, IsPath};

/// No two paths have one spelling.
pub fn paths_tell_themselves()
    ensures { (p q : Path) → IsPath p → IsPath q → path_bytes p ≡ path_bytes q → p ≡ q }
{}

/// The names of a path go on below those of another one, which is not `/`, exactly where its word begins with the other's and a `/`.
pub fn paths_below_begin_alike()
    ensures { (from to : Path) → IsPath from → IsPath to → from ≢ []
        → IsTrue (has_rest (below from to)) ↔ ((rest : List ℕ) × (path_bytes to ≡ path_bytes from ++ 47 ∷ rest)) }
{}

/// The listing of a tree ascends strictly in the order of bytes, where its paths have names that calls can make.
pub fn listed_paths_ascend()
    ensures { (tree : Tree) (rows : List Listed) → IsMap tree → HasNames tree → Lists tree rows
        → AllPairs (λ (row : Listed) (later : Listed). IsTrue (is_name_before row.path later.path)) rows }
{}

/// A call is read in one way.
pub fn calls_are_read_alike()
    ensures { (call : Call (List ℕ)) (file other : FileCall) → IsReadAs call file → IsReadAs call other → file ≡ other }
{}
