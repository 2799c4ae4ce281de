//! What follows when the metadata of a call stand: file data go from block to block, and the call ends.
ghost use Rattle.std.specs.Prelude.{◌≡◌, ◌/◌, ◌<◌, IfOk, length};
ghost use Rattle.pf_volume.specs.Volumes.{size_of};
ghost use Rattle.pf_file_calls.specs.Moving.{HasBlock, IsTreeOf, block_at, fills, fills_block, fills_file, gathers, data_moves, moves_on, reads_file, stat_of, stores};
ghost use Rattle.pf_file_calls.specs.Filling.{read_end, bytes_wanted};
ghost use Rattle.pf_file_calls.specs.declared.moving.Moved.TheVariants.{Ends};
ghost use Rattle.pf_file_calls.specs.declared.answers.CallAnswer.TheVariants.{Bytes as BytesRead};
ghost use Rattle.pf_tree.specs.Plans.{node_at};

use crate::CallAnswer;
use crate::blocks::{reads_block, writes_block};
use crate::bytes::{joined, zeros};
use crate::filling::{Fill, count_blocks, end_of, filled, first_of, is_new, wanted};
use pf_base::{Ask, Bytes, Call, Data, Names, NoMemory, Reply};
use pf_tree::Tree;
use pf_volume::Volume;
use std::alloc::Global;

/// What an ask for file data is for. Each names the block by its index in the file.
#[derive(Debug, Drop)]
pub enum DataMoving {
    /// An old block is read, which is to be filled.
    Fetches {
        fill: Fill,
        index: u32,
    },
    /// A block is written.
    Stores {
        fill: Fill,
        index: u32,
    },
    /// A block is read for a read of the file from `offset` up to `to`. These are the bytes of the blocks before it.
    Gathers {
        inode: u16,
        offset: u32,
        to: u32,
        index: u32,
        bytes: Bytes,
    },
}

/// One step of a call whose metadata stand.
#[derive(Drop)]
pub enum Moved {
    /// This is asked next, for this.
    Asks(Ask, DataMoving),
    /// The call ends with this answer.
    Ends(CallAnswer),
}

/// The block of an index of the file with an inode; the last one of the volume where it has none.
fn block_at(volume: &Volume, tree: &Tree, inode: u16, index: u32) -> u16
    requires { IsTreeOf volume.now tree.now.tables }
    ensures block { result ≡ block_at tree.now.tables inode index }
    ensures low { result < size_of volume.now / 8 }
{
    volume.laws();
    let last = (volume.size() / 8).saturating_sub(1) as u16;
    tree.block_at(inode, index).min(last)
}

/// Fills the block of this index: a new block is written whole, an old one is read before.
fn fills_block(
    alloc: Global,
    volume: &Volume,
    block: u16,
    fill: Fill,
    index: u32,
) -> Result<Moved, NoMemory>
    requires { block < size_of volume.now / 8 }
    ensures { IfOk result (λ step. step ≡ fills_block volume.now block fill index) }
{
    if is_new(&fill, index) {
        let bytes = zeros(alloc, 4096)?;
        return stores(alloc, volume, block, fill, index, &bytes);
    }
    let ask = reads_block(volume, block);
    Ok(Moved::Asks(ask, DataMoving::Fetches { fill, index }))
}

/// Writes the filled bytes of a block.
fn stores(
    alloc: Global,
    volume: &Volume,
    block: u16,
    fill: Fill,
    index: u32,
    bytes: &[u8],
) -> Result<Moved, NoMemory>
    requires block { block < size_of volume.now / 8 }
    requires bytes { length bytes.now ≡ 4096 }
    ensures { IfOk result (λ step. step ≡ stores volume.now block fill index bytes.now) }
{
    let bytes = filled(alloc, &fill, index, bytes)?;
    let ask = writes_block(alloc, volume, block, &bytes)?;
    Ok(Moved::Asks(ask, DataMoving::Stores { fill, index }))
}

/// Fills the blocks from this index on.
fn fills(
    alloc: Global,
    volume: &Volume,
    tree: &Tree,
    fill: Fill,
    index: u64,
) -> Result<Moved, NoMemory>
    requires { IsTreeOf volume.now tree.now.tables }
    ensures { IfOk result (λ step. step ≡ fills volume.now tree.now.tables fill index) }
{
    if index < end_of(&fill) {
        let index = index as u32;
        let block = block_at(volume, tree, fill.inode, index);
        return fills_block(alloc, volume, block, fill, index);
    }
    Ok(Moved::Ends(CallAnswer::Fine))
}

/// Reads the blocks from this index on, up to the end of what is wanted.
fn gathers(
    alloc: Global,
    volume: &Volume,
    tree: &Tree,
    inode: u16,
    offset: u32,
    to: u32,
    index: u64,
    bytes: Vec<u8>,
) -> Result<Moved, NoMemory>
    requires { IsTreeOf volume.now tree.now.tables }
    ensures { IfOk result (λ step. step ≡ gathers volume.now tree.now.tables inode offset to index bytes.items) }
{
    if index < count_blocks(to as u64) {
        let index = index as u32;
        let ask = reads_block(volume, block_at(volume, tree, inode, index));
        let moving = DataMoving::Gathers {
            inode,
            offset,
            to,
            index,
            bytes: Bytes::new(bytes),
        };
        return Ok(Moved::Asks(ask, moving));
    }
    gives(alloc, offset, to, &bytes)
}

/// The end of a read, of the bytes of its blocks.
fn gives(alloc: Global, offset: u32, to: u32, bytes: &[u8]) -> Result<Moved, NoMemory>
    ensures { IfOk result (λ step. step ≡ Ends (BytesRead (bytes_wanted offset to bytes.now))) }
{
    let some = wanted(alloc, offset, to, bytes)?;
    Ok(Moved::Ends(CallAnswer::Bytes(Bytes::new(some))))
}

/// Fills a file from its first block on that the fill touches.
fn fills_file(alloc: Global, volume: &Volume, tree: &Tree, fill: Fill) -> Result<Moved, NoMemory>
    requires { IsTreeOf volume.now tree.now.tables }
    ensures { IfOk result (λ step. step ≡ fills_file volume.now tree.now.tables fill) }
{
    let first = first_of(&fill);
    fills(alloc, volume, tree, fill, first as u64)
}

/// Reads so many bytes of a file of this size, from one place on.
fn reads_file(
    alloc: Global,
    volume: &Volume,
    tree: &Tree,
    inode: u16,
    size: u32,
    offset: u32,
    count: u32,
) -> Result<Moved, NoMemory>
    requires { IsTreeOf volume.now tree.now.tables }
    ensures { IfOk result (λ step. step ≡ reads_file volume.now tree.now.tables inode offset (read_end size offset count)) }
{
    let none = Vec::new(alloc);
    let to = read_end(size, offset, count);
    if offset < to {
        let first = (offset / 4096) as u64;
        return gathers(alloc, volume, tree, inode, offset, to, first, none);
    }
    Ok(Moved::Ends(CallAnswer::Bytes(Bytes::new(none))))
}

/// What stands at a path.
fn stat_of(tree: &Tree, path: &Names) -> CallAnswer
    ensures { result ≡ stat_of (node_at tree.now.tables path.now) }
{
    match tree.size_at(path) {
        Some(size) => CallAnswer::File { size },
        None => CallAnswer::Directory,
    }
}

/// The end of the file or of the read, whichever comes first.
fn read_end(size: u32, offset: u32, count: u32) -> u32
    ensures { result ≡ read_end size offset count }
{
    (size as u64).min(offset as u64 + count as u64) as u32
}

/// The first step of a call's data, on the tables with its changes. Its file had this size before. The one error is `NoMemory` (1).
pub fn moves(
    alloc: Global,
    volume: &Volume,
    tree: &Tree,
    size: u32,
    call: &Call<Names>,
) -> Result<Moved, NoMemory>
    requires { IsTreeOf volume.now tree.now.tables }
    ensures { IfOk result (λ step. step ≡ data_moves volume.now tree.now.tables size call.now) }
{
    match call {
        Call::Write {
            path,
            offset,
            byte,
            count,
        } if *count > 0 => {
            let fill = Fill {
                inode: tree.inode_at(path),
                size,
                start: *offset,
                byte: *byte,
                count: *count,
            };
            fills_file(alloc, volume, tree, fill)
        }
        Call::Truncate { path, size: to } if size < *to => {
            let fill = Fill {
                inode: tree.inode_at(path),
                size,
                start: *to,
                byte: 0,
                count: 0,
            };
            fills_file(alloc, volume, tree, fill)
        }
        Call::Read {
            path,
            offset,
            count,
        } => {
            let inode = tree.inode_at(path);
            reads_file(alloc, volume, tree, inode, size, *offset, *count)
        }
        Call::Stat { path } => Ok(Moved::Ends(stat_of(tree, path))),
        Call::List { path } => {
            let names = tree.names_at(alloc, path)?;
            Ok(Moved::Ends(CallAnswer::Names(names)))
        }
        _ => Ok(Moved::Ends(CallAnswer::Fine)),
    }
}

/// The next step, where the ask was answered. The one error is `NoMemory` (1).
pub fn moves_on(
    alloc: Global,
    volume: &Volume,
    tree: &Tree,
    moving: &DataMoving,
    reply: &Reply,
) -> Result<Moved, NoMemory>
    requires tree { IsTreeOf volume.now tree.now.tables }
    requires reply { HasBlock reply.now }
    ensures { IfOk result (λ step. step ≡ moves_on volume.now tree.now.tables moving.now reply.now) }
{
    match reply {
        Reply::Written => goes_on(alloc, volume, tree, moving),
        Reply::Bytes(sectors) => takes(alloc, volume, tree, moving, sectors),
    }
}

/// The next step, where the ask was a write.
fn goes_on(
    alloc: Global,
    volume: &Volume,
    tree: &Tree,
    moving: &DataMoving,
) -> Result<Moved, NoMemory>
    requires { IsTreeOf volume.now tree.now.tables }
    ensures { IfOk result (λ step. step ≡ moves_on volume.now tree.now.tables moving.now Reply.Written) }
{
    match moving {
        DataMoving::Stores { fill, index } => fills(alloc, volume, tree, *fill, *index as u64 + 1),
        _ => Ok(Moved::Ends(CallAnswer::Fine)),
    }
}

/// The next step, where the ask was a read.
fn takes(
    alloc: Global,
    volume: &Volume,
    tree: &Tree,
    moving: &DataMoving,
    sectors: &Data,
) -> Result<Moved, NoMemory>
    requires tree { IsTreeOf volume.now tree.now.tables }
    requires eight { length sectors.now ≡ 8 }
    ensures { IfOk result (λ step. step ≡ moves_on volume.now tree.now.tables moving.now (Reply.Bytes sectors.now)) }
{
    match moving {
        DataMoving::Fetches { fill, index } => {
            let none = Vec::new(alloc);
            let bytes = joined(alloc, &none, sectors.as_slice())?;
            let block = block_at(volume, tree, fill.inode, *index);
            stores(alloc, volume, block, *fill, *index, &bytes)
        }
        DataMoving::Gathers {
            inode,
            offset,
            to,
            index,
            bytes,
        } => {
            let all = joined(alloc, bytes.as_slice(), sectors.as_slice())?;
            gathers(
                alloc,
                volume,
                tree,
                *inode,
                *offset,
                *to,
                *index as u64 + 1,
                all,
            )
        }
        DataMoving::Stores { .. } => Ok(Moved::Ends(CallAnswer::Fine)),
    }
}
