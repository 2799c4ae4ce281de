//! What a live line is asked for.
ghost use Rattle.std.specs.Prelude.{◌<◌, ◌≤◌};

/// What a live line is asked for.
#[derive(Clone, Copy, Debug, PartialEq, Eq)]
pub struct LinePlan {
    /// How many hosts write, 1 to 8.
    pub hosts: u32,
    /// How many writes each host has, 1 to 64.
    pub writes: u32,
    /// How many workers apply, 1 to 8.
    pub workers: u32,
    /// How many packets are delivered at most, 1 to 100,000.
    pub turns: u32,
    /// How many sectors the chunk has, 16 to 4,096.
    pub sectors: u32,
    ghost few_hosts: { hosts ≤ 8 },
    ghost few_writes: { writes ≤ 64 },
    ghost some_workers: { 1 ≤ workers },
    ghost few_workers: { workers ≤ 8 },
    ghost some_sectors: { 0 < sectors },
    ghost few_sectors: { sectors ≤ 4096 },
}
