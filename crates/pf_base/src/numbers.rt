//! Numbers as bytes, the highest byte first.
ghost use Rattle.std.specs.Prelude.{◌≡◌, ◌+◌, ◌≤◌, length};
ghost use Rattle.std.specs.Int.{w16, w32, w64, to_be_bytes};
ghost use Rattle.std.specs.List.{splice};
ghost use Rattle.pf_base.specs.Numbers.{number_at};

/// The number in two bytes from byte `at` on; `None` exactly where the bytes end before.
pub fn get_u16(bytes: &[u8], at: usize) -> Option<u16>
    ensures { result ≡ number_at w16 bytes.now at }
{
    let field = bytes.get(at..)?.first_chunk()?;
    Some(u16::from_be_bytes(*field))
}

/// The number in four bytes from byte `at` on; `None` exactly where the bytes end before.
pub fn get_u32(bytes: &[u8], at: usize) -> Option<u32>
    ensures { result ≡ number_at w32 bytes.now at }
{
    let field = bytes.get(at..)?.first_chunk()?;
    Some(u32::from_be_bytes(*field))
}

/// The number in eight bytes from byte `at` on; `None` exactly where the bytes end before.
pub fn get_u64(bytes: &[u8], at: usize) -> Option<u64>
    ensures { result ≡ number_at w64 bytes.now at }
{
    let field = bytes.get(at..)?.first_chunk()?;
    Some(u64::from_be_bytes(*field))
}

/// Writes bytes over those from byte `at` on.
pub fn put_bytes(out: &mut [u8], at: usize, bytes: &[u8])
    requires { at + length bytes.now ≤ length out.old }
    ensures { out.new ≡ splice out.old at (at + length bytes.now) bytes.now }
{
    out[at..at + bytes.len()].copy_from_slice(bytes);
}

/// Writes a number over two bytes from byte `at` on.
pub fn put_u16(out: &mut [u8], at: usize, number: u16)
    requires { at + 2 ≤ length out.old }
    ensures { out.new ≡ splice out.old at (at + 2) (to_be_bytes w16 number) }
{
    put_bytes(out, at, &number.to_be_bytes());
}

/// Writes a number over four bytes from byte `at` on.
pub fn put_u32(out: &mut [u8], at: usize, number: u32)
    requires { at + 4 ≤ length out.old }
    ensures { out.new ≡ splice out.old at (at + 4) (to_be_bytes w32 number) }
{
    put_bytes(out, at, &number.to_be_bytes());
}

/// Writes a number over eight bytes from byte `at` on.
pub fn put_u64(out: &mut [u8], at: usize, number: u64)
    requires { at + 8 ≤ length out.old }
    ensures { out.new ≡ splice out.old at (at + 8) (to_be_bytes w64 number) }
{
    put_bytes(out, at, &number.to_be_bytes());
}
