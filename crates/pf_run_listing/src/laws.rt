//! Laws of listings.
ghost use Rattle.std.specs.Prelude.{◌≡◌, ℕ, List};
ghost use Rattle.pf_image.specs.Recovery.{FindsIn};
ghost use Rattle.pf_run_listing.specs.Listing.{HasNone, IsListing};

/// Where no disk fails, the text is a function of the two files.
pub fn two_files_have_one_listing()
    ensures { (head zero one text other : List ℕ) → IsListing (FindsIn head zero one) (HasNone head zero one) ⊥ text
        → IsListing (FindsIn head zero one) (HasNone head zero one) ⊥ other → other ≡ text }
{}
