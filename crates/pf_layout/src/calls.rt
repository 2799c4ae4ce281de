//! Calls of the file system as words, and with their paths read.
ghost use Rattle.pf_layout.specs.Calls.{ReadsCall, ReadsPlace};
ghost use Rattle.pf_layout.specs.Paths.{ReadsPath};

use crate::{Path, PathFault};
use pf_base::{Bytes, Call, Names};
use std::alloc::Global;

/// The call with its paths read. `BadName` (80) comes exactly where one of its words spells no path, or `/` where a directory is
/// removed or a path renamed, and `NoMemory` (1) where memory has run out.
pub fn read_call(alloc: Global, call: &Call<Bytes>) -> Result<Call<Names>, PathFault>
    ensures { ReadsCall call.now result }
{
    match call {
        Call::Mkdir { path } => read_path(alloc, path).map(|path| Call::Mkdir { path }),
        Call::Create { path } => read_path(alloc, path).map(|path| Call::Create { path }),
        Call::Write {
            path,
            offset,
            byte,
            count,
        } => read_path(alloc, path).map(|path| Call::Write {
            path,
            offset: *offset,
            byte: *byte,
            count: *count,
        }),
        Call::Read {
            path,
            offset,
            count,
        } => read_path(alloc, path).map(|path| Call::Read {
            path,
            offset: *offset,
            count: *count,
        }),
        Call::Truncate { path, size } => read_path(alloc, path).map(|path| Call::Truncate {
            path,
            size: *size,
        }),
        Call::Rename { from, to } => Ok(Call::Rename {
            from: read_place(alloc, from)?,
            to: read_place(alloc, to)?,
        }),
        Call::Unlink { path } => read_path(alloc, path).map(|path| Call::Unlink { path }),
        Call::Rmdir { path } => read_place(alloc, path).map(|path| Call::Rmdir { path }),
        Call::Stat { path } => read_path(alloc, path).map(|path| Call::Stat { path }),
        Call::List { path } => read_path(alloc, path).map(|path| Call::List { path }),
    }
}

/// The path that the word spells.
fn read_path(alloc: Global, word: &Bytes) -> Result<Names, PathFault>
    ensures { ReadsPath word.now result }
{
    let path = Path::parse(alloc, word.as_slice())?;
    Ok(path.into_names())
}

/// The path that the word spells, which is not `/`.
fn read_place(alloc: Global, word: &Bytes) -> Result<Names, PathFault>
    ensures { ReadsPlace word.now result }
{
    let path = Path::parse(alloc, word.as_slice())?;
    if path.is_root() {
        return Err(PathFault::BadName);
    }
    Ok(path.into_names())
}
