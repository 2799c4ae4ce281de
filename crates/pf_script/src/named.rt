//! Which chunks and groups the lines of a script may name.
ghost use Rattle.std.specs.Prelude.{◌≡◌, ◌≤◌};
ghost use Rattle.pf_script.specs.Lines.{first_named, one_more_group};

/// No volume has more groups.
const MOST_GROUPS: u32 = 8;

/// What the next line may name.
#[derive(Clone, Copy, Debug, PartialEq, Eq)]
pub struct NamedVolume {
    /// The chunks of the volume.
    pub chunks: u32,
    /// The chunks and the `move` lines so far, at most 8: groups below this number, whether they are made or not.
    pub groups: u32,
}

impl NamedVolume {
    /// In a new volume of so many chunks.
    pub fn new(chunks: u32) -> NamedVolume
        ensures { result ≡ first_named chunks }
    {
        NamedVolume {
            chunks,
            groups: chunks,
        }
    }

    /// Behind one `move` line more.
    pub fn one_more(self) -> NamedVolume
        requires { self.groups ≤ 8 }
        ensures { result ≡ one_more_group self }
    {
        NamedVolume {
            chunks: self.chunks,
            groups: MOST_GROUPS.min(self.groups + 1),
        }
    }
}
