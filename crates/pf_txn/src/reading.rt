//! Transactions that are the whole of a value.
ghost use Rattle.std.specs.Prelude.{◌≡◌, ◌≤◌, IfOk, length};
ghost use Rattle.pf_codec.specs.Parsers.{ParserGives, GivesAll, byte_at, row_at};
ghost use Rattle.pf_txn.specs.Reading.{ReadsTxn, name_at, set_inode_at, add_entry_at, delete_entry_at, set_tag_at, change_tagged, change_at, txn_at, txn_of, txn_in};

use pf_base::{Bytes, NoMemory, Value};
use pf_codec::{ByteReader, ReadFault};
use pf_tree::{Change, Changes, Txn};
use std::alloc::Global;

/// The inode of a tag that is freed.
const FREED: u16 = 0xffff;

/// So many bytes.
fn read_bytes(alloc: Global, reader: &mut ByteReader, count: u8) -> Result<Vec<u8>, ReadFault>
    ensures { ParserGives (λ bytes. bytes.items) result reader.new (row_at byte_at count reader.old) }
{
    let mut bytes = Vec::new(alloc);
    for _ in 0..count {
        let byte = reader.u8()?;
        bytes.push(byte)?;
    }
    Ok(bytes)
}

/// A name with its length.
#[tactic(auto, unfolding(crate::specs::Reading::name_at, pf_codec::specs::Parsers::followed_by))]
fn read_name(alloc: Global, reader: &mut ByteReader) -> Result<Bytes, ReadFault>
    ensures { ParserGives (λ name. name) result reader.new (name_at reader.old) }
{
    let count = reader.u8()?;
    let bytes = read_bytes(alloc, reader, count)?;
    Ok(Bytes::new(bytes))
}

#[tactic(auto, unfolding(crate::specs::Reading::set_inode_at, pf_codec::specs::Parsers::followed_by, pf_codec::specs::Parsers::checked))]
fn read_set_inode(reader: &mut ByteReader) -> Result<Change, ReadFault>
    ensures { ParserGives (λ change. change) result reader.new (set_inode_at reader.old) }
{
    let inode = reader.u16()?;
    let kind = reader.u8()?;
    let size = reader.u32()?;
    if kind > 2 {
        return Err(ReadFault::Malformed);
    }
    Ok(Change::SetInode { inode, kind, size })
}

#[tactic(auto, unfolding(crate::specs::Reading::add_entry_at, pf_codec::specs::Parsers::followed_by, pf_codec::specs::Parsers::checked))]
fn read_add_entry(alloc: Global, reader: &mut ByteReader) -> Result<Change, ReadFault>
    ensures { ParserGives (λ change. change) result reader.new (add_entry_at reader.old) }
{
    let directory = reader.u16()?;
    let inode = reader.u16()?;
    let name = read_name(alloc, reader)?;
    Ok(Change::AddEntry {
        directory,
        inode,
        name,
    })
}

#[tactic(auto, unfolding(crate::specs::Reading::delete_entry_at, pf_codec::specs::Parsers::followed_by, pf_codec::specs::Parsers::checked))]
fn read_delete_entry(alloc: Global, reader: &mut ByteReader) -> Result<Change, ReadFault>
    ensures { ParserGives (λ change. change) result reader.new (delete_entry_at reader.old) }
{
    let directory = reader.u16()?;
    let name = read_name(alloc, reader)?;
    Ok(Change::DeleteEntry { directory, name })
}

#[tactic(auto, unfolding(crate::specs::Reading::set_tag_at, pf_codec::specs::Parsers::followed_by, pf_codec::specs::Parsers::checked))]
fn read_set_tag(reader: &mut ByteReader) -> Result<Change, ReadFault>
    ensures { ParserGives (λ change. change) result reader.new (set_tag_at reader.old) }
{
    let block = reader.u16()?;
    let inode = reader.u16()?;
    let index = reader.u8()?;
    if inode == FREED && index != 0 {
        return Err(ReadFault::Malformed);
    }
    Ok(Change::SetTag {
        block,
        inode,
        index,
    })
}

/// The change of this tag.
#[tactic(auto, unfolding(crate::specs::Reading::change_tagged))]
fn read_tagged(alloc: Global, reader: &mut ByteReader, tag: u8) -> Result<Change, ReadFault>
    ensures { ParserGives (λ change. change) result reader.new (change_tagged tag reader.old) }
{
    match tag {
        1 => read_set_inode(reader),
        2 => read_add_entry(alloc, reader),
        3 => read_delete_entry(alloc, reader),
        4 => read_set_tag(reader),
        _ => Err(ReadFault::Malformed),
    }
}

#[tactic(auto, unfolding(crate::specs::Reading::change_at, pf_codec::specs::Parsers::followed_by))]
fn read_change(alloc: Global, reader: &mut ByteReader) -> Result<Change, ReadFault>
    ensures { ParserGives (λ change. change) result reader.new (change_at reader.old) }
{
    let tag = reader.u8()?;
    read_tagged(alloc, reader, tag)
}

/// So many changes.
fn read_changes(alloc: Global, reader: &mut ByteReader, count: u8) -> Result<Vec<Change>, ReadFault>
    ensures { ParserGives (λ changes. changes.items) result reader.new (row_at change_at count reader.old) }
{
    let mut changes = Vec::new(alloc);
    for _ in 0..count {
        let change = read_change(alloc, reader)?;
        changes.push(change)?;
    }
    Ok(changes)
}

#[tactic(auto, unfolding(crate::specs::Reading::txn_at, pf_codec::specs::Parsers::followed_by, pf_codec::specs::Parsers::checked))]
fn read_front(alloc: Global, reader: &mut ByteReader) -> Result<Txn, ReadFault>
    ensures { ParserGives (λ txn. txn) result reader.new (txn_at reader.old) }
{
    let mount = reader.u8()?;
    let number = reader.u32()?;
    let count = reader.u8()?;
    let changes = Changes::new(read_changes(alloc, reader, count)?);
    Ok(Txn {
        mount,
        number,
        changes,
    })
}

#[tactic(auto, unfolding(crate::specs::Reading::txn_of))]
fn read_whole(alloc: Global, bytes: &[u8]) -> Result<Txn, ReadFault>
    ensures { GivesAll (λ txn. txn) result (txn_of bytes.now) }
{
    let mut reader = ByteReader::new(bytes);
    let txn = read_front(alloc, &mut reader)?;
    if !reader.is_at_end() {
        return Err(ReadFault::Malformed);
    }
    Ok(txn)
}

/// The transaction whose spelling these bytes are, all of them.
fn read_in(alloc: Global, bytes: &[u8]) -> Result<Option<Txn>, NoMemory>
    requires { length bytes.now ≤ 400 }
    ensures reads { IfOk result (ReadsTxn bytes.now) }
    ensures txn { IfOk result (λ found. found ≡ txn_in bytes.now) }
{
    match read_whole(alloc, bytes) {
        Ok(txn) => Ok(Some(txn)),
        Err(ReadFault::Malformed) => Ok(None),
        Err(ReadFault::NoMemory) => Err(NoMemory),
    }
}

/// The transaction whose spelling the whole value is; `None` exactly where it is the spelling of none. The one error is
/// `NoMemory` (1).
pub fn read_txn(alloc: Global, value: &Value) -> Result<Option<Txn>, NoMemory>
    ensures reads { IfOk result (ReadsTxn value.now) }
    ensures txn { IfOk result (λ found. found ≡ txn_in value.now) }
{
    read_in(alloc, value.as_slice())
}
