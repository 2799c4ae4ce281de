//! What happened to a group since an earlier moment, in numbers.
ghost use Rattle.pf_live_line.specs.pf_group.specs.GroupIs.{GroupIs};
ghost use Rattle.pf_live_line.specs.pf_group_rounds.specs.Growing.{HasGrown};
ghost use Rattle.pf_live_session.specs.Totals.{AreTotals, IsBeginning};

use pf_disk::Disk;
use pf_live_line::pf_group::Group;

/// What a live line came to, in numbers.
#[derive(Clone, Copy, Debug, PartialEq, Eq)]
pub struct Totals {
    /// How many slots were acknowledged.
    pub acked: u64,
    /// How many jobs were finished, and answered `Done`, on servers 0, 1 and 2.
    pub applied: [u64; 3],
}

/// What there was of each when a line began.
#[derive(Clone, Copy)]
pub(crate) struct Beginning {
    acked: usize,
    applied: [u64; 3],
}

impl Beginning {
    /// What there is of each now, where a line begins.
    pub(crate) fn of<D: Disk + Drop>(group: &Group<D>) -> Beginning
        ensures { IsBeginning group.now result }
    {
        Beginning {
            acked: group.acked().len(),
            applied: group.applied_on_each(),
        }
    }

    /// What happened since.
    pub(crate) fn totals<D: Disk + Drop>(&self, group: &Group<D>) -> Totals
        ensures { (old : GroupIs) → IsBeginning old self.now → HasGrown old group.now → AreTotals old group.now result }
    {
        let applied = group.applied_on_each();
        Totals {
            acked: group.acked().len().saturating_sub(self.acked) as u64,
            applied: [
                applied[0].saturating_sub(self.applied[0]),
                applied[1].saturating_sub(self.applied[1]),
                applied[2].saturating_sub(self.applied[2]),
            ],
        }
    }
}
