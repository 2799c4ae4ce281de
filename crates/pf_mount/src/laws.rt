//! Laws of mounts over a layout.
ghost use Rattle.std.specs.Prelude.{◌≡◌, ◌≢◌, ℕ, ◌<◌, ◌≤◌, None, Some, suc};
ghost use Rattle.pf_volume.specs.Volumes.{Extent};
ghost use Rattle.pf_base.specs.Asks.{chunk_of};
ghost use Rattle.pf_base.specs.declared.asks.Ask.{Ask};
ghost use Rattle.pf_base.specs.declared.asks.Reply.{Reply};
ghost use Rattle.pf_tree.specs.Calls.{FileCall};
ghost use Rattle.pf_file_calls.specs.declared.calls.Pending.{Pending};
ghost use Rattle.pf_mount.specs.declared.work.MountWork.TheVariants.{Rests};
ghost use Rattle.pf_journal.specs.declared.layouts.Layout.{Layout};
ghost use Rattle.pf_journal.specs.declared.layouts.Layout.TheVariants.{Three};
ghost use Rattle.pf_mount_errands.specs.Positions.{anchors_of};
ghost use Rattle.pf_mount.specs.Mounts.{MountIs, mount_answered, ask_at, mount_asked, mount_opening, starting};
ghost use Rattle.pf_mount.specs.Lives.{CallsOn, FailsOn, MountHasFailed, IsAtCall, MountIsAtRest, IsMounting, MountsOn, RestsOn};
ghost use Rattle.pf_mount.specs.Standing.{Awaits, AwaitsStill, IsMount};

/// A mount tells once that it is ready, before any call, and each call ends once. A mount that is not ready stays so until it rests, or has
/// failed as the superblock is another's. A call is started from rest; it goes on until it ends, and then the mount rests. An answer at
/// rest, to an ask of earlier work, ends nothing, nor does one where the mount has failed.
pub fn mounts_are_ready_once_and_calls_end_once()
    ensures opening { (layout : Layout) (number : ℕ) (v : Extent) → IsMounting (mount_opening layout number v) }
    ensures mounting { (m : MountIs) (port : ℕ) (reply : Reply) → IsMounting m
        → MountsOn (mount_answered m port reply).mount (mount_answered m port reply).next }
    ensures starting { (m : MountIs) (call : FileCall) → CallsOn (record { number = suc m.files.calls; call = call }) (starting m call).mount
        (starting m call).next }
    ensures calling { (m : MountIs) (p : Pending) (port : ℕ) (reply : Reply) → IsAtCall p m
        → CallsOn p (mount_answered m port reply).mount (mount_answered m port reply).next }
    ensures resting { (m : MountIs) (port : ℕ) (reply : Reply) → MountIsAtRest m
        → RestsOn (mount_answered m port reply).mount (mount_answered m port reply).next }
    ensures failed { (m : MountIs) (port : ℕ) (reply : Reply) → MountHasFailed m
        → FailsOn (mount_answered m port reply).mount (mount_answered m port reply).next }
{}

/// What a port awaits it awaits until it is answered: what is answered or handed out at another port leaves it, and so does a call that is
/// started at rest. A port that awaits an answer asks nothing, and where a port asks nothing the mount stays as it is. Over three anchors,
/// what is asked at a port below 3 goes to the chunk of that number.
pub fn pending_asks_stay()
    ensures answered { (m : MountIs) (port other : ℕ) (reply : Reply) → port ≤ anchors_of m.position → other ≢ port
        → AwaitsStill m (mount_answered m port reply).mount other }
    ensures asked { (m : MountIs) (port other : ℕ) → port ≤ anchors_of m.position → other ≢ port → AwaitsStill m (mount_asked m port) other }
    ensures starting { (m : MountIs) (call : FileCall) (port : ℕ) → m.task.work ≡ Rests → AwaitsStill m (starting m call).mount port }
    ensures silent { (m : MountIs) (port : ℕ) (ask : Ask) → Awaits m port (Some ask) → ask_at m port ≡ None }
    ensures none { (m : MountIs) (port : ℕ) → ask_at m port ≡ None → mount_asked m port ≡ m }
    ensures of_anchors { (m : MountIs) (port : ℕ) (ask : Ask) → IsMount m → m.position.layout ≡ Three → port < 3 → ask_at m port ≡ Some ask
        → chunk_of ask ≡ port }
{}

/// A mount keeps its layout.
pub fn layouts_stay()
    ensures answered { (m : MountIs) (port : ℕ) (reply : Reply) → (mount_answered m port reply).mount.position.layout ≡ m.position.layout }
    ensures asked { (m : MountIs) (port : ℕ) → (mount_asked m port).position.layout ≡ m.position.layout }
    ensures starting { (m : MountIs) (call : FileCall) → (starting m call).mount.position.layout ≡ m.position.layout }
{}
