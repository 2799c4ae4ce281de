//! The group as it was before its first turn.
ghost use Rattle.std.specs.Prelude.{◌≡◌};

use pf_disk::Disk;
use pf_group_rounds::pf_group::Group;
use std::marker::Model;
use std::snapshot::Snapshot;

/// The group as it was before its first turn. No value of it has bytes.
#[derive(Drop)]
pub struct SharedStart<D: Disk> {
    group: Snapshot<Group<D>>,
}

impl<D: Disk> Model for SharedStart<D> {
    ghost use Rattle.pf_group_rounds.specs.pf_group.specs.GroupIs.{GroupIs};

    ghost Value = { GroupIs };

    ghost view = { λ start. start.group.value };
}

impl<D: Disk> SharedStart<D> {
    /// The group as it is.
    pub(crate) fn of(group: &Group<D>) -> SharedStart<D>
        ensures { result ≡ group.now }
    {
        SharedStart {
            group: Snapshot::of(group),
        }
    }
}
