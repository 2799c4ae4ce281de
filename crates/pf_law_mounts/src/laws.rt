//! One list of transactions.
ghost use Rattle.std.specs.Prelude.{◌<◌, ◌^◌, length};
ghost use Rattle.pf_volume.specs.Volumes.{IsVolume};
ghost use Rattle.pf_law_runs.specs.Scripts.{OfRuns};
ghost use Rattle.pf_law_runs.specs.pf_world.specs.Headline.{IsLawfulRun};
ghost use Rattle.pf_law_mounts.specs.Lists.{HasOneList};

/// In a run with a mount, wherever its journal lies, whose groups are lawful, there is one list of transactions, decided position by position over
/// the groups that serve the chunks, through any number of moves, by what the run tells that came to its mounts. At one place it ends at the first
/// position that is not decided. No call has two in it. At every moment of the run each mount stands behind the first ones of the list; its tables
/// are those of a new volume after these, and they stand for the user's tree after the calls that these name. No mount ever fails for good, as the
/// superblock that it reads is the volume's own, or zeros. Each answer that the run tells is that of this tree, at the mount's position then. Each
/// call is planned behind all transactions of the calls that the run had told as answered before it began. Each sector of each chunk is one
/// register through all moves: a move writes each piece into the new group as the mover read it last, and these same reads say which writes of
/// the old group are in the sector's order. Each answer stands in the report at once, in the line of its call. Where calls are one at a time, or
/// those that touch a file's blocks are, each read of the file is refused or gives its contents. (A transaction's spelling has room for 2^32 calls
/// of a mount, so a script is to have fewer lines.)
pub fn runs_have_one_list()
    ensures { OfRuns (λ lines run.
        IsLawfulRun run.world → IsVolume run.world.volume.extent → length lines < 2 ^ 32 → 0 < length run.world.volume.hosts
        → HasOneList run.world.volume run.told) }
{}
