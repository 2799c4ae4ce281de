//! The hosts of a volume.
ghost use Rattle.std.specs.Prelude.{◌≡◌, ◌↔◌, [], IsTrue, None, Some, MatchOption, length};
ghost use Rattle.pf_journal.specs.Layouts.{HasAnchors};
ghost use Rattle.pf_world_hosts.specs.Calls.{HasAnchored};
ghost use Rattle.pf_world_hosts.specs.Volumes.{host_at};
ghost use Rattle.pf_move.specs.Routes.{AreFirst};
ghost use Rattle.pf_volume.specs.Volumes.{IsVolume};

use pf_journal::Layout;
use pf_mount_host::Host;
use pf_move::{Mover, Routes};
use pf_volume::Volume;
use std::alloc::Global;
use std::marker::Model;

/// A volume has at most so many mounts in a run.
pub(crate) const MOST_MOUNTS: usize = 16;

/// The hosts of a volume, at most sixteen in a run, and the mover of a chunk. Its groups are handed to each call.
pub struct Fleet {
    pub(crate) volume: Volume,
    /// Where the journal lies.
    pub(crate) layout: Layout,
    /// Each by the number of its mount. No number is given twice: that of a killed one stays empty.
    pub(crate) hosts: Vec<Option<Host>>,
    /// How many calls were begun.
    pub(crate) calls: u32,
    /// Which group serves each chunk.
    pub(crate) routes: Routes,
    /// The mover of the chunk that is moving, if one is.
    pub(crate) mover: Option<Mover>,
}

/// By hand, so that what lets it go calls this, and no crate above proves anew how its parts go.
impl Drop for Fleet {
    fn drop(self) {
        let Fleet {
            volume: _,
            layout: _,
            hosts: _,
            calls: _,
            routes: _,
            mover: _,
        } = self;
    }
}

impl Model for Fleet {
    ghost use Rattle.pf_world_hosts.specs.Steps.{FleetIs};

    ghost Value = { FleetIs };

    ghost view = { λ f. record { volume = f.volume; layout = f.layout; hosts = f.hosts.items; calls = f.calls; routes = f.routes; mover = f.mover } };
}

impl Fleet {
    /// No host of a volume yet, whose journal lies at one place, and each chunk is served by the group of its own number. It takes no memory.
    pub fn new(alloc: Global, volume: Volume) -> Fleet
        requires { IsVolume volume }
        ensures new { result ≡ record { volume = volume; layout = Layout.Plain; hosts = []; calls = 0; routes = result.routes; mover = None } }
        ensures routes { AreFirst volume.chunks result.routes }
    {
        Fleet {
            volume,
            layout: Layout::Plain,
            hosts: Vec::new(alloc),
            calls: 0,
            routes: Routes::new(volume.chunks()),
            mover: None,
        }
    }

    /// The host of mount `mount`, if there is one.
    pub fn host(&self, mount: u8) -> Option<&Host>
        ensures { MatchOption result (host_at self.now.hosts mount ≡ None) (λ host. host_at self.now.hosts mount ≡ Some host.now) }
    {
        match self.hosts.get(mount as usize) {
            Some(Some(host)) => Some(host),
            _ => None,
        }
    }

    /// Whether the journal lies on three anchors.
    pub fn is_anchored(&self) -> bool
        ensures { IsTrue result ↔ (self.now.layout ≡ Layout.Three) }
    {
        self.layout == Layout::Three
    }

    /// How many mounts were made.
    pub fn mount_count(&self) -> usize
        ensures { result ≡ length self.now.hosts }
    {
        self.hosts.len()
    }

    /// Whether the volume has three anchors and a chunk of file data: 4 chunks or more, of 4,096 sectors each.
    pub fn has_anchors(&self) -> bool
        ensures { IsTrue result ↔ HasAnchors self.now.volume }
    {
        Layout::Three.has_room(&self.volume)
    }

    /// The journal lies on three anchors from here on. No mount was made before. It takes no memory.
    pub fn anchor(&mut self)
        requires none { self.old.hosts ≡ [] }
        requires before { self.old.layout ≡ Layout.Plain }
        requires room { HasAnchors self.old.volume }
        ensures { HasAnchored self.old self.new }
    {
        self.layout = Layout::Three;
    }
}
