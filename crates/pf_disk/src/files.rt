//! Writes and cuts of a file's bytes in memory, within room that was taken before.
ghost use Rattle.std.specs.Prelude.{◌≡◌, ◌≤◌, ◌<◌, ◌^◌, length, vec_capacity};
ghost use Rattle.pf_disk.specs.Recorded.{is_touched};
ghost use Rattle.pf_disk.specs.Files.{file_grown, overwritten, file_resized, end_of_write};
ghost use Rattle.pf_disk.specs.Scrambles.{next_number, scrambled};

/// Where a write of so many bytes ends. A write of none reaches nothing.
pub fn end_of(at: usize, count: usize) -> usize
    requires { end_of_write at count < 2 ^ 64 }
    ensures { result ≡ end_of_write at count }
{
    if count == 0 { 0 } else { at + count }
}

/// Puts zeros behind the bytes up to a length. The room for them was taken before.
fn grow(file: &mut Vec<u8>, len: usize)
    requires { len ≤ vec_capacity file.old }
    ensures grown { file.new.items ≡ file_grown file.old.items len }
    ensures capacity { vec_capacity file.old ≤ vec_capacity file.new }
{
    for _ in file.len()..len {
        let _ = file.push(0);
    }
}

/// Writes bytes over a file and past its end. The room for them was taken before.
pub fn overwrite(file: &mut Vec<u8>, at: usize, bytes: &[u8])
    requires room { end_of_write at (length bytes.now) ≤ vec_capacity file.old }
    ensures written { file.new.items ≡ overwritten file.old.items at bytes.now }
    ensures capacity { vec_capacity file.old ≤ vec_capacity file.new }
{
    if bytes.is_empty() {
        return;
    }
    grow(file, at);
    let over = bytes.len().min(file.len() - at);
    file[at..at + over].copy_from_slice(&bytes[..over]);
    let _ = file.extend_from_slice(&bytes[over..]);
}

/// Cuts a file to a length, or lengthens it with zeros. The room for them was taken before.
pub fn resize(file: &mut Vec<u8>, len: usize)
    requires { len ≤ vec_capacity file.old }
    ensures resized { file.new.items ≡ file_resized file.old.items len }
    ensures capacity { vec_capacity file.old ≤ vec_capacity file.new }
{
    file.truncate(len);
    grow(file, len);
}

/// Whether one of the ranges holds the place.
fn is_marked(ranges: &[(usize, usize)], place: usize) -> bool
    ensures { result ≡ is_touched ranges.now place }
{
    ranges
        .iter()
        .any(|range| range.0 <= place && place < range.1)
}

/// The next number of the generator x -> x * 6364136223846793005 + 1442695040888963407 mod 2^64.
fn next_number(number: u64) -> u64
    ensures { result ≡ next_number number }
{
    number
        .wrapping_mul(6_364_136_223_846_793_005)
        .wrapping_add(1_442_695_040_888_963_407)
}

/// Puts the top bytes of the generator's numbers, started at `seed`, into all places that one of the ranges holds.
pub fn scramble(bytes: &mut [u8], ranges: &[(usize, usize)], seed: u64)
    ensures { bytes.new ≡ scrambled ranges.now 0 seed bytes.old }
{
    let mut number = seed;
    for place in 0..bytes.len() {
        if is_marked(ranges, place) {
            number = next_number(number);
            bytes[place] = (number >> 56) as u8;
        }
    }
}
