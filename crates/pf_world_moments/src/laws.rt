//! Laws of calls as words.
ghost use Rattle.std.specs.Prelude.{◌≡◌, ◌↔◌, ℕ, List, Some};
ghost use Rattle.pf_base.specs.declared.calls.Call.{Call};
ghost use Rattle.pf_tree.specs.Calls.{FileCall};
ghost use Rattle.pf_layout.specs.Calls.{IsReadAs};
ghost use Rattle.pf_world_moments.specs.Words.{read_call};

/// A call is read as the one that its words make.
pub fn calls_are_read_by_their_words()
    ensures { (call : Call (List ℕ)) (file : FileCall) → IsReadAs call file ↔ (read_call call ≡ Some file) }
{}
