//! What a group tells of all that happened to it: its laws, and how much it was.
ghost use Rattle.std.specs.Prelude.{◌≡◌, ◌<◌, [], IsTrue, length};
ghost use Rattle.pf_entry.specs.Lists.{Every};
ghost use Rattle.pf_protocol.specs.Answers.{IsLegal, claims_of};
ghost use Rattle.pf_group.specs.Applied.{applied_on_each};
ghost use Rattle.pf_group.specs.Crashing.{AllLeaveAtCrash};
ghost use Rattle.pf_group.specs.Sound.{IsSound};

use crate::Group;
use pf_disk::Disk;

impl<D: Disk + Drop> Group<D> {
    /// Every law holds of all that happened, and it is a legal history, where the disks tell their content. Its open claims are of the three
    /// servers.
    ///
    /// Where they do, a crash at any moment since the last step began that may have touched disks left of each server what that may hold
    /// before that step or right after it. It does nothing: that it is so is asked of the proof alone.
    pub fn laws(&self)
        ensures told { self.now.told ≡ D.tells }
        ensures legal { IsTrue self.now.told → IsLegal self.now.setup self.now.history }
        ensures low { Every (λ c. c.server < 3) (claims_of [] self.now.history) }
        ensures sound { IsSound self.now.setup self.now.history }
        ensures crash { IsTrue self.now.told → AllLeaveAtCrash D.seen D.moment D.left_since D.tells_moments self.now }
    {
        let _past = &self.past;
    }

    /// How much has happened: the length of the history.
    pub fn happened(&self) -> usize
        ensures { result ≡ length self.now.history }
    {
        self.past.count
    }

    /// How many jobs were finished, and answered `Done`, on servers 0, 1 and 2.
    pub fn applied_on_each(&self) -> [u64; 3]
        ensures { result ≡ applied_on_each self.now.history }
    {
        self.past.applied
    }
}
