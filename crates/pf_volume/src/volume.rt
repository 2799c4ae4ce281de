//! A volume.
ghost use Rattle.std.specs.Prelude.{◌≡◌, ◌+◌, ◌<◌, ◌≤◌, IfOk, IsErrOf, MatchResult, map};
ghost use Rattle.std.specs.List.{range_with_len};
ghost use Rattle.pf_volume.specs.Volumes.{IsVolume, IsPastEnd, place_of, size_of};

use crate::{OutsideVolume, Place, Places, SplitFault};
use std::alloc::Global;
use std::marker::Model;

/// A volume of 1 to 8 chunks, each of 16 to 4,096 sectors, a multiple of 8. Its sectors are numbered through the chunks in
/// their order (PolarFS: a volume is made of chunks).
#[derive(Clone, Copy, Debug, PartialEq, Eq)]
pub struct Volume {
    chunks: u32,
    sectors: u32,
}

impl Model for Volume {
    ghost use Rattle.pf_volume.specs.Volumes.{Extent, IsVolume};

    ghost Value = { Extent };

    ghost view = { λ v. record { chunks = v.chunks; sectors = v.sectors } };

    ghost invariant = { λ v. IsVolume (record { chunks = v.chunks; sectors = v.sectors }) };

    ghost inverse = { λ v. record { chunks = v.chunks; sectors = v.sectors } };
}

impl Volume {
    /// A volume of so many chunks of so many sectors.
    pub fn new(chunks: u32, sectors: u32) -> Volume
        requires { IsVolume (record { chunks = chunks; sectors = sectors }) }
        ensures { result ≡ record { chunks = chunks; sectors = sectors } }
    {
        Volume { chunks, sectors }
    }

    /// How many chunks it has.
    pub fn chunks(&self) -> u32
        ensures { result ≡ self.now.chunks }
    {
        self.chunks
    }

    /// How many sectors each chunk has: 16 to 4,096, a multiple of 8.
    pub fn sectors(&self) -> u32
        ensures { result ≡ self.now.sectors }
    {
        self.sectors
    }

    /// Its chunks and their sectors are as many as those of a volume. It does nothing: that it is so is asked of the proof alone.
    pub fn laws(&self)
        ensures form { IsVolume self.now }
        ensures small { size_of self.now ≤ 32768 }
    {
        let _sectors = self.sectors;
    }

    /// How many sectors it has, at most 32,768.
    pub fn size(&self) -> u32
        ensures size { result ≡ size_of self.now }
        ensures small { size_of self.now ≤ 32768 }
    {
        self.chunks * self.sectors
    }

    /// The chunk and the sector in it of a sector of the volume. `OutsideVolume` (70) exactly where it lies past the last one.
    pub fn locate(&self, sector: u32) -> Result<Place, OutsideVolume>
        ensures { MatchResult result (λ place. (sector < size_of self.now) × (place ≡ place_of self.now sector)) (λ _. size_of self.now ≤ sector) }
    {
        if sector >= self.size() {
            return Err(OutsideVolume);
        }
        Ok(Place {
            chunk: (sector / self.sectors) as u8,
            sector: sector % self.sectors,
        })
    }

    /// The places of `count` sectors from sector `first` on, one for each and in their order. `OutsideVolume` (70) exactly where
    /// one of them lies past the last one of the volume; `NoMemory` (1).
    pub fn split(&self, alloc: Global, first: u32, count: u32) -> Result<Places, SplitFault>
        ensures places { IfOk result (λ places. places ≡ map (place_of self.now) (range_with_len first count)) }
        ensures within { IfOk result (λ _. IsPastEnd self.now first count → ⊥) }
        ensures outside { IsErrOf result SplitFault.OutsideVolume → IsPastEnd self.now first count }
    {
        let mut places = Vec::new(alloc);
        for k in 0..count {
            let Some(sector) = first.checked_add(k) else {
                self.laws();
                return Err(SplitFault::OutsideVolume);
            };
            let place = self.locate(sector)?;
            places.push(place)?;
        }
        Ok(Places::new(places))
    }
}
