//! Laws of what mounts over a layout put into their list.
ghost use Rattle.std.specs.Prelude.{◌≡◌, ◌≢◌, ℕ, [], Some, List, slice_get};
ghost use Rattle.pf_volume.specs.Volumes.{Extent};
ghost use Rattle.pf_journal.specs.declared.layouts.Layout.{Layout};
ghost use Rattle.pf_mount.specs.declared.work.MountWork.TheVariants.{Ballots, Pauses};
ghost use Rattle.pf_law_calls.specs.Doings.{HaveRegisters, IsDecidedIn, IsListOf};
ghost use Rattle.pf_law_calls.specs.Lives.{CanBe, MountTold, lives};
ghost use Rattle.pf_law_calls.specs.Lists.{HasPutIn, IsPlanned};

/// Where a mount is in a ballot with an input, or pauses before it begins the next one, the input spells what the mount's pending call plans on
/// the tables that the mount has. That call is the last that was begun, whatever was told.
pub fn inputs_are_planned()
    ensures ballots { (layout : Layout) (v : Extent) (told : List MountTold) (m : ℕ) (value : List ℕ)
        → (lives layout v told m).mount.task.work ≡ Ballots (Some value) → IsPlanned told m (lives layout v told m).mount.files value }
    ensures pauses { (layout : Layout) (v : Extent) (told : List MountTold) (m left : ℕ) (value : List ℕ)
        → (lives layout v told m).mount.task.work ≡ Pauses (Some value) left → IsPlanned told m (lives layout v told m).mount.files value }
{}

/// Where the blocks of the anchors are registers, each decided value was put in, unless it is empty: some mount that stood at the position
/// began a ballot with it. So was each value of a transaction list.
pub fn lists_were_put_in()
    ensures decisions { (layout : Layout) (v : Extent) (told : List MountTold) (position : ℕ) (value : List ℕ) → CanBe layout v told
        → HaveRegisters layout v told → IsDecidedIn layout v told position value → value ≢ [] → HasPutIn layout v told position value }
    ensures list { (layout : Layout) (v : Extent) (told : List MountTold) (list : List (List ℕ)) (position : ℕ) (value : List ℕ) → CanBe layout v told
        → HaveRegisters layout v told → IsListOf layout v told list → slice_get list position ≡ Some value → value ≢ []
        → HasPutIn layout v told position value }
{}
