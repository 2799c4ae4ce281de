//! The sectors of a write.
ghost use Rattle.std.specs.Prelude.{◌≡◌, ◌+◌, ◌*◌, ◌≤◌, IfOk, drop, length};
ghost use Rattle.std.specs.Simd.{first_chunks};

use crate::{Data, NoMemory, SECTOR_BYTES, Sector, Shared};
use std::alloc::Global;
use std::marker::Model;
use std::sync::Arc;

/// Where the sectors of a write are: in memory of their own, or among bytes that others hold too, `count` of them from a byte on.
#[derive(Drop)]
pub enum PayloadPlace {
    /// In memory of their own.
    Own(Data),
    /// Among bytes that others hold too.
    Among {
        /// The bytes, with all that stands in them.
        bytes: Shared,
        /// The byte at which the first sector begins.
        from: usize,
        /// How many sectors there are.
        count: usize,
    },
}

/// The sectors of a write, which all holders of its op share.
#[derive(Drop)]
pub struct Payload {
    place: Arc<PayloadPlace, Global>,
}

impl Model for Payload {
    ghost use Rattle.std.specs.Prelude.{List, ℕ};
    ghost use Rattle.std.specs.Arc.{arc_value};
    ghost use Rattle.pf_base.specs.Places.{AreThere, sectors_there};

    ghost Value = { List (List ℕ) };

    ghost view = { λ p. sectors_there (arc_value p.place) };

    ghost invariant = { λ p. AreThere (arc_value p.place) };
}

impl Payload {
    /// Sectors that are to be shared.
    pub fn new(alloc: Global, sectors: Data) -> Result<Payload, NoMemory>
        ensures { IfOk result (λ p. p ≡ sectors) }
    {
        let place = Arc::new(alloc, PayloadPlace::Own(sectors))?;
        Ok(Payload { place })
    }

    /// The 1 to 8 sectors that stand among these bytes from byte `from` on. They are not copied: all the bytes are kept as long as
    /// the payload is. The one error is `NoMemory` (1).
    pub fn among(
        alloc: Global,
        bytes: &Shared,
        from: usize,
        count: usize,
    ) -> Result<Payload, NoMemory>
        requires some { 1 ≤ count }
        requires few { count ≤ 8 }
        requires inside { from + 512 * count ≤ length bytes.now }
        ensures { IfOk result (λ p. p ≡ first_chunks 512 count (drop from bytes.now)) }
    {
        let bytes = bytes.try_clone()?;
        let place = Arc::new(alloc, PayloadPlace::Among { bytes, from, count })?;
        Ok(Payload { place })
    }

    /// One more holder of the same sectors. No sector is copied.
    pub fn try_clone(&self) -> Result<Payload, NoMemory>
        ensures { IfOk result (λ p. p ≡ self.now) }
    {
        let place = Arc::try_clone(&self.place)?;
        Ok(Payload { place })
    }

    /// The count of sectors, 1 to 8.
    pub fn len(&self) -> usize
        ensures count { result ≡ length self.now }
        ensures some { 1 ≤ result }
        ensures few { result ≤ 8 }
    {
        match &*self.place {
            PayloadPlace::Own(data) => data.len(),
            PayloadPlace::Among {
                bytes: _,
                from: _,
                count,
            } => *count,
        }
    }

    /// Its sectors.
    pub fn as_slice(&self) -> &[Sector]
        ensures { result.now ≡ self.now }
    {
        match &*self.place {
            PayloadPlace::Own(data) => data.as_slice(),
            PayloadPlace::Among { bytes, from, count } => sectors_in(
                bytes.as_slice(),
                *from,
                *count,
            ),
        }
    }
}

/// So many sectors from this byte on.
fn sectors_in(bytes: &[u8], from: usize, count: usize) -> &[Sector]
    requires { from + 512 * count ≤ length bytes.now }
    ensures { result.now ≡ first_chunks 512 count (drop from bytes.now) }
{
    let (sectors, _) = bytes[from..].as_chunks::<SECTOR_BYTES>();
    &sectors[..count]
}
