//! Where blocks lie.
ghost use Rattle.std.specs.Prelude.{◌≡◌, ◌<◌};
ghost use Rattle.pf_journal.specs.Places.{place_of_block};

/// The sector of the volume, numbered through its chunks, that has the block of a mount in a position.
pub fn place_of(position: u32, mount: u8) -> u32
    requires position { position < 256 }
    requires mount { mount < 16 }
    ensures { result ≡ place_of_block position mount }
{
    8 + 16 * position + u32::from(mount)
}
