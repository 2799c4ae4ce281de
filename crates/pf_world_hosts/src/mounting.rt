//! Hosts come and go.
ghost use Rattle.std.specs.Prelude.{◌≡◌, ◌↔◌, ◌<◌, ◌≤◌, IfErr, IfOk, IsErr, IsErrOf, List, None, OnErr, OnOk, length, slice_set};
ghost use Rattle.pf_volume.specs.Volumes.{size_of};
ghost use Rattle.pf_journal.specs.Layouts.{VolumeHasRoom, least_sectors};
ghost use Rattle.pf_mount_host.specs.pf_chunk.specs.Views.{ChunkIs};
ghost use Rattle.pf_mount_host.specs.pf_world_moments.specs.Steps.{AreReady};
ghost use Rattle.pf_world_hosts.specs.Calls.{HasJoined};
ghost use Rattle.pf_world_hosts.specs.Steps.{IsFleetOf};
ghost use Rattle.pf_world_hosts.specs.Volumes.{host_at};

use crate::fleet::MOST_MOUNTS;
use crate::{Fleet, JoinFault, NoMount};
use pf_base::NoMemory;
use pf_disk::Disk;
use pf_mount_host::Host;
use pf_mount_host::pf_chunk::ChunkGroup;
use std::alloc::Global;

impl Fleet {
    /// A host comes: the mount of the next number. It asks in its steps alone, and no group is touched. `SmallVolume` (93) comes exactly
    /// where the volume has fewer than 4,112 sectors, `MountsFull` (92) exactly where it has more and sixteen hosts came before, and
    /// `NoMemory` (1) where memory has run out. Each leaves the hosts as they were.
    pub fn mount<D: Disk + Drop>(
        &mut self,
        alloc: Global,
        chunks: &mut [ChunkGroup<D>],
    ) -> Result<u8, JoinFault>
        requires ready { AreReady chunks.old }
        requires fleet { IsFleetOf chunks.old self.old }
        ensures joined { IfOk result (λ number. HasJoined chunks.old self.old number chunks.new self.new) }
        ensures small { IsErrOf result JoinFault.SmallVolume ↔ (size_of self.old.volume < least_sectors) }
        ensures full { IsErrOf result JoinFault.MountsFull ↔ (16 ≤ length self.old.hosts) }
        ensures err { OnErr result ((chunks.new ≡ chunks.old) × (self.new ≡ self.old)) }
    {
        if !self.layout.has_room(&self.volume) {
            return Err(JoinFault::SmallVolume);
        }
        if self.mount_count() == MOST_MOUNTS {
            return Err(JoinFault::MountsFull);
        }
        Ok(self.join(alloc)?)
    }

    /// The mount of the next number comes, where the volume has room for it and fewer than sixteen came.
    fn join(&mut self, alloc: Global) -> Result<u8, NoMemory>
        requires room { VolumeHasRoom self.old.layout self.old.volume }
        requires few { length self.old.hosts < 16 }
        ensures joined { IfOk result (λ number. (chunks : List ChunkIs) → AreReady chunks → IsFleetOf chunks self.old
            → HasJoined chunks self.old number chunks self.new) }
        ensures err { OnErr result (self.new ≡ self.old) }
    {
        self.hosts.reserve(1)?;
        let number = self.hosts.len() as u8;
        let host = Host::new(alloc, self.layout, number, self.volume)?;
        self.hosts.push_reserved(Some(host));
        Ok(number)
    }

    /// Host `mount` is no more. What it submitted goes on. `NoMount` (96) comes exactly where there is none.
    pub fn kill(&mut self, mount: u8) -> Result<(), NoMount>
        ensures killed { OnOk result (self.new ≡ record self.old { hosts = slice_set self.old.hosts mount None }) }
        ensures still { OnOk result ((chunks : List ChunkIs) → IsFleetOf chunks self.old → IsFleetOf chunks self.new) }
        ensures none { IsErr result ↔ (host_at self.old.hosts mount ≡ None) }
        ensures err { OnErr result (self.new ≡ self.old) }
    {
        if self.host(mount).is_none() {
            return Err(NoMount);
        }
        self.hosts[mount as usize] = None;
        Ok(())
    }
}
