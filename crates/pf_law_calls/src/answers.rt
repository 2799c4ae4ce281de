//! Laws of what calls of mounts over a layout are answered.
ghost use Rattle.std.specs.Prelude.{◌≡◌, ℕ, ◌++◌, List, [], ◌∷◌, Some};
ghost use Rattle.pf_volume.specs.Volumes.{Extent, IsVolume};
ghost use Rattle.pf_file_calls.specs.declared.answers.CallAnswer.{CallAnswer as AnswerIs};
ghost use Rattle.pf_journal.specs.declared.layouts.Layout.{Layout};
ghost use Rattle.pf_mount.specs.declared.work.MountNext.TheVariants.{Done};
ghost use Rattle.pf_law_calls.specs.Doings.{HaveRegisters, IsListOf};
ghost use Rattle.pf_law_calls.specs.Lives.{CanBe, Input, MountTold, lives, mount_after};
ghost use Rattle.pf_law_calls.specs.Spelled.{CanAllBeSpelled};
ghost use Rattle.pf_law_calls.specs.Trees.{AreFewCalls};
ghost use Rattle.pf_law_calls.specs.Answering.{IsCallAnsweredBy, next_by};
ghost use Rattle.pf_law_calls.specs.Exchanges.{exchanges};

/// Where a call of a mount ends with an input, its answer is the tree's for the mount's last call, by the tree after the transactions below the
/// mount's position then. It is refused as that tree refuses it, or as the journal is full where it would change that tree. Else it changes
/// nothing and is answered from that tree, a read by the bytes that came last at the mount's port for file data, of the blocks of the file; or its
/// own transaction is the last below the position, it changed the tree before into this one, and it is done.
pub fn calls_answer_as_the_tree()
    ensures { (layout : Layout) (v : Extent) (told : List MountTold) (list : List (List ℕ)) → IsVolume v → CanBe layout v told → HaveRegisters layout v told
        → IsListOf layout v told list → CanAllBeSpelled told → AreFewCalls told → (before after : List MountTold) (m : ℕ) (input : Input) (answer : AnswerIs)
        → told ≡ before ++ record { mount = m; input = input } ∷ after → next_by (lives layout v before m).mount input ≡ Some (Done answer)
        → IsCallAnsweredBy layout v told list (exchanges layout v (before ++ record { mount = m; input = input } ∷ []) m) m
        (mount_after (lives layout v before m).mount input) answer }
{}
