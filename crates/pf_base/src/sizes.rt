//! Sizes on which several crates agree.

/// The bytes of a sector.
pub const SECTOR_BYTES: usize = 512;

/// The most bytes of a half of a server's chunk log that are used, with its head and the gate that ends its records.
pub const HALF_BYTES: u64 = 67_108_864;

/// The most bytes of a file: 48 blocks of 4,096.
pub const MOST_FILE_BYTES: u32 = 196_608;

/// The first block of file data, of eight sectors, in a volume that has the journal at one place: behind the superblock's block and the
/// 512 of the journal.
pub const FIRST_DATA_BLOCK: u16 = 513;
