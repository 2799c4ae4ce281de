//! The world of a script.
use crate::kind::Kind;
use pf_disk::Disk;
use pf_live_session::pf_chunk::ChunkGroup;
use pf_live_session::pf_live_line::Passes;
use pf_world_hosts::Fleet;
use std::marker::Model;

/// The groups of a volume, in the order in which they were made, on the disks that they were given, and its hosts.
#[derive(Drop)]
pub struct World<D: Disk> {
    pub(crate) sectors: u32,
    pub(crate) names: u8,
    pub(crate) format: u8,
    pub(crate) chunks: Vec<ChunkGroup<D>>,
    pub(crate) fleet: Fleet,
    /// How many `move` lines it was given.
    pub(crate) moves: u32,
    /// Once a line has decided it.
    pub(crate) kind: Option<Kind>,
    /// Those of its last live line that was not refused.
    pub(crate) passes: Option<Passes>,
    /// The disks that no chunk has, in the reverse of their order. It has room for all of them.
    pub(crate) spare: Vec<D>,
}

impl<D: Disk> Model for World<D> {
    ghost use Rattle.std.specs.Prelude.{◌≤◌, ◌+◌, ◌*◌, length, reverse, vec_capacity, vec_len};
    ghost use Rattle.pf_world.specs.Views.{WorldOn};

    ghost Value = { WorldOn D };

    ghost view = { λ w. record {
      world = record {
        sectors = w.sectors;
        names = w.names;
        format = w.format;
        chunks = w.chunks.items;
        fleet = w.fleet;
        moves = w.moves;
        kind = w.kind;
        passes = w.passes;
      };
      spare = reverse w.spare.items;
    } };

    ghost invariant = { λ w. vec_len w.spare + 6 * length w.chunks.items ≤ vec_capacity w.spare };
}
