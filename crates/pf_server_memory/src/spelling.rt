//! Images of a server's state. They are spelled from where its sectors stand.
ghost use Rattle.std.specs.Prelude.{◌≡◌, ◌≤◌, ◌<◌, IfOk};
ghost use Rattle.pf_entry.specs.Canonical.{IsCanonicalRecord};
ghost use Rattle.pf_entry.specs.Records.{image_of};
ghost use Rattle.pf_codec.specs.Spelling.{body_bytes};
ghost use Rattle.pf_server_memory.specs.Bounds.{far};
ghost use Rattle.pf_server_memory.specs.Images.{imaged, standing};
ghost use Rattle.pf_server_memory.specs.Standing.{IsBounded};

use crate::{Running, copied_above, vote_of};
use pf_base::{NoMemory, Slot, Term};
use pf_codec::{ThinSectors, spell_image};
use pf_entry::{Slots, VoteLog};
use pf_server_tables::SectorTable;
use std::alloc::Global;

/// The sectors of the table, from where they stand.
pub(crate) fn thin(table: &SectorTable) -> ThinSectors
    ensures { result ≡ table.now }
{
    ThinSectors::new(table.written(), table.len())
}

/// The body of the image of the state as it stands, under this generation. `NoMemory` (1) where there is no memory for it.
pub fn spell_state(alloc: Global, me: &Running, generation: u64) -> Result<Vec<u8>, NoMemory>
    requires { IsCanonicalRecord 2 (standing me.now generation) }
    ensures { IfOk result (λ body. body.items ≡ body_bytes (standing me.now generation)) }
{
    let vote = vote_of(alloc, me)?;
    let applied = me.applied.above(alloc, me.log.base())?;
    let sectors = thin(&me.sectors);
    spell_image(alloc, generation, me.term, &vote, &applied, &sectors)
}

/// The body of the image of the state under its next generation, with this term and checkpoint, these applied slots above it and
/// these sectors. `NoMemory` (1) where there is no memory for it.
pub fn spell_imaged(
    alloc: Global,
    me: &Running,
    term: Term,
    base: Slot,
    applied: &Slots,
    sectors: &SectorTable,
) -> Result<Vec<u8>, NoMemory>
    requires bounded { IsBounded me.now }
    requires reached { me.now.log.base ≤ base }
    requires small { base < far }
    requires canonical { IsCanonicalRecord 2 (image_of (imaged me.now term base applied.now sectors.now)) }
    ensures { IfOk result (λ body. body.items ≡ body_bytes (image_of (imaged me.now term base applied.now sectors.now))) }
{
    let vote = VoteLog {
        base,
        starts: me.starts.copied(alloc)?,
        log: copied_above(alloc, &me.log, base)?,
    };
    let generation = me.generation + 1;
    spell_image(alloc, generation, term, &vote, applied, &thin(sectors))
}
