//! A law of places.
ghost use Rattle.std.specs.Prelude.{◌≡◌, ℕ, ◌<◌};
ghost use Rattle.pf_volume.specs.Volumes.{Extent, IsVolume, place_of, size_of};

/// Each sector of a volume has a place in it, and no two have the same.
pub fn places_are_apart()
    ensures apart { (v : Extent) (x y : ℕ) → IsVolume v → place_of v x ≡ place_of v y → x ≡ y }
    ensures chunk { (v : Extent) (x : ℕ) → IsVolume v → x < size_of v → (place_of v x).chunk < v.chunks }
    ensures sector { (v : Extent) (x : ℕ) → IsVolume v → (place_of v x).sector < v.sectors }
{}
