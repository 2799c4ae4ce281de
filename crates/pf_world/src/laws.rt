//! What holds of every world.
ghost use Rattle.std.specs.Prelude.{IsTrue};
ghost use Rattle.pf_world.specs.Headline.{IsSoundWorld, WorldLeavesAtCrash};

use crate::World;
use pf_disk::Disk;

impl<D: Disk + Drop> World<D> {
    /// Every law holds of the histories of all groups, and they are legal where disks tell their content. Where they do, a crash at any
    /// moment since a group's last step began that may have touched disks left of each of its servers what that may hold before that step
    /// or right after it. It does nothing: that it is so is asked of the proof alone.
    pub fn laws(&self)
        ensures sound { IsSoundWorld self.now.world }
        ensures crash { IsTrue D.tells → WorldLeavesAtCrash D.seen D.moment D.left_since D.tells_moments self.now.world }
    {
        for chunk in &self.chunks {
            chunk.laws();
        }
    }
}
