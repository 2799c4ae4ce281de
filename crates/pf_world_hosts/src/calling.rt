//! Calls of hosts begin.
ghost use Rattle.std.specs.Prelude.{◌≡◌, ◌≢◌, ◌+◌, ◌<◌, ◌^◌, IfErr, OnErr, OnOk};
ghost use Rattle.pf_mount_host.specs.pf_world_moments.specs.Steps.{AreReady};
ghost use Rattle.pf_world_hosts.specs.Calls.{HasCalled, IsCause};
ghost use Rattle.pf_world_hosts.specs.Steps.{IsFleetOf};

use crate::{Fleet, HostCallFault};
use pf_base::{Bytes, Call};
use pf_disk::Disk;
use pf_mount_host::pf_chunk::ChunkGroup;
use std::alloc::Global;

impl Fleet {
    /// Begins a call of host `mount`, which asks in its steps alone: no group is touched. A call that ends at once puts its event line at the
    /// end of `out`. Fewer than 2^32 - 1 calls were begun before.
    ///
    /// `NoMount` (96) comes exactly where there is no such host. Else `NoMemory` (1) comes where memory has run out; the hosts are not for
    /// use then. Else `CallPending` (91) comes exactly where its mount is not ready or a call of it has not ended, else `BadName` (80)
    /// exactly where a word of the call is no path, or `/` where a directory is removed or a path renamed. But for `NoMemory` these leave
    /// the hosts as they were.
    pub fn call<D: Disk + Drop>(
        &mut self,
        alloc: Global,
        mount: u8,
        call: &Call<Bytes>,
        chunks: &mut [ChunkGroup<D>],
        out: &mut Vec<u8>,
    ) -> Result<(), HostCallFault>
        requires ready { AreReady chunks.old }
        requires fleet { IsFleetOf chunks.old self.old }
        requires few { self.old.calls + 1 < 2 ^ 32 }
        ensures called { OnOk result (HasCalled mount call.now chunks.old self.old out.old.items chunks.new self.new out.new.items) }
        ensures cause { IfErr result (λ fault. IsCause fault mount call.now self.old) }
        ensures refused { IfErr result (λ fault. fault ≢ HostCallFault.NoMemory → self.new ≡ self.old) }
        ensures unwritten { IfErr result (λ fault. fault ≢ HostCallFault.NoMemory → out.new.items ≡ out.old.items) }
        ensures err { OnErr result (chunks.new ≡ chunks.old) }
    {
        let place = mount as usize;
        if place >= self.hosts.len() {
            return Err(HostCallFault::NoMount);
        }
        let Some(host) = &mut self.hosts[place] else {
            return Err(HostCallFault::NoMount);
        };
        host.start(alloc, call, out)?;
        self.calls += 1;
        Ok(())
    }
}
