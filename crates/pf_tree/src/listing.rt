//! The listing of a tree: all its paths, in the order of their bytes.
ghost use Rattle.std.specs.Prelude.{◌≡◌, ℕ, ◌<◌, ◌++◌, ◌∷◌, None, Some, IfOk, MatchOption, OnOk, get_or, replicate, set};
ghost use Rattle.std.specs.Cmp.Lexicographic.{slice_cmp};
ghost use Rattle.std.specs.Ordering.{nat_cmp};
ghost use Rattle.pf_tree_tables.specs.Tables.{IsAscending, inode_at, names_in};
ghost use Rattle.pf_tree.specs.Listings.{Lists, bytes_up, listing, noted, rooted, row_of, rows_upto, uplinks};
ghost use Rattle.pf_tree.specs.Standing.{TablesStandFor};
ghost use Rattle.pf_tree.specs.Trees.{Data, Tree as TreeIs};

use pf_base::{Bytes, NoMemory};
use pf_tree_tables::{DirectoryEntry, FileTables, INODES, Inode, copy_name};
use std::alloc::Global;
use std::cmp::Ordering;
use std::marker::Model;

/// A path of a tree as bytes, and what stands there. A directory has size 0.
#[derive(Debug, Drop)]
pub struct Listed {
    pub path: Bytes,
    pub is_dir: bool,
    pub size: u32,
}

/// Paths of a tree.
#[derive(Debug, Drop)]
pub struct Listing {
    rows: Vec<Listed>,
}

impl Model for Listing {
    ghost use Rattle.std.specs.Prelude.{List};
    ghost use Rattle.pf_tree.specs.declared.listing.Listed.{Listed};

    ghost Value = { List Listed };

    ghost view = { λ l. l.rows.items };
}

impl Listing {
    /// The paths of a vector. This takes no memory.
    pub(crate) fn new(rows: Vec<Listed>) -> Listing
        ensures { result ≡ rows.items }
    {
        Listing { rows }
    }

    /// The paths.
    pub fn as_slice(&self) -> &[Listed]
        ensures { result.now ≡ self.now }
    {
        &self.rows
    }
}

/// The directory in which an inode has a name, and the name.
#[derive(Drop)]
struct Uplink {
    directory: u16,
    name: Bytes,
}

/// The listing of tables. Where they stand for a tree, it has each of its paths.
pub(crate) fn list_tree(alloc: Global, tables: &FileTables) -> Result<Vec<Listed>, NoMemory>
    ensures rows { IfOk result (λ rows. rows.items ≡ listing tables.now) }
    ensures tree { (d : Data) (tree : TreeIs) → TablesStandFor d tables.now tree → IfOk result (λ rows. Lists tree rows.items) }
{
    let links = uplinks_of(alloc, tables)?;
    let mut rows = rows_of(alloc, tables, &links)?;
    rows.sort_by(|row, other| compare(row, other))?;
    Ok(rows)
}

/// How the paths of two rows follow each other.
fn compare(row: &Listed, other: &Listed) -> Ordering
    ensures { result ≡ slice_cmp nat_cmp row.now.path other.now.path }
{
    row.path.as_slice().cmp(other.path.as_slice())
}

/// For each inode the directory in which it has a name, and the name.
fn uplinks_of(alloc: Global, tables: &FileTables) -> Result<Vec<Option<Uplink>>, NoMemory>
    ensures links { IfOk result (λ links. links.items ≡ uplinks tables.now.entries 1024) }
    ensures ascending { OnOk result ((d : ℕ) → d < 1024 → IsAscending (names_in tables.now.entries d)) }
{
    let mut links = no_uplinks(alloc)?;
    for directory in 0..INODES {
        note(alloc, &mut links, directory, tables.names_in(directory))?;
    }
    Ok(links)
}

/// No name for any inode.
fn no_uplinks(alloc: Global) -> Result<Vec<Option<Uplink>>, NoMemory>
    ensures { IfOk result (λ links. links.items ≡ replicate 1024 None) }
{
    let mut links = Vec::with_capacity(alloc, INODES as usize)?;
    for inode in 0..INODES {
        links.push(None)?;
    }
    Ok(links)
}

/// Notes the names of a directory at their inodes.
fn note(
    alloc: Global,
    links: &mut Vec<Option<Uplink>>,
    directory: u16,
    rows: &[DirectoryEntry],
) -> Result<(), NoMemory>
    ensures { OnOk result (links.new.items ≡ noted links.old.items directory rows.now) }
{
    for row in rows {
        let name = copy_name(alloc, &row.name)?;
        set_uplink(links, row.inode, Uplink { directory, name });
    }
    Ok(())
}

/// Notes one name at its inode.
fn set_uplink(links: &mut Vec<Option<Uplink>>, inode: u16, link: Uplink)
    ensures { links.new.items ≡ set links.old.items inode (Some link) }
{
    let place = inode as usize;
    if place < links.len() {
        links[place] = Some(link);
    }
}

/// A row for each inode that is in use and has a path.
fn rows_of(
    alloc: Global,
    tables: &FileTables,
    links: &[Option<Uplink>],
) -> Result<Vec<Listed>, NoMemory>
    ensures { IfOk result (λ rows. rows.items ≡ rows_upto tables.now links.now 1024) }
{
    let mut rows = Vec::new(alloc);
    for inode in 0..INODES {
        push_row(alloc, &mut rows, tables, links, inode)?;
    }
    Ok(rows)
}

/// Adds the row of an inode, if it is in use and has a path.
fn push_row(
    alloc: Global,
    rows: &mut Vec<Listed>,
    tables: &FileTables,
    links: &[Option<Uplink>],
    inode: u16,
) -> Result<(), NoMemory>
    ensures { OnOk result (rows.new.items ≡ rows.old.items ++ row_of (bytes_up links.now 1024 inode) (inode_at tables.now inode)) }
{
    let Some(bytes) = bytes_up(alloc, links, 1024, inode)? else {
        return Ok(());
    };
    let path = rooted(bytes)?;
    match tables.inode(inode) {
        None => {}
        Some(Inode::Directory) => rows.push(Listed {
            path,
            is_dir: true,
            size: 0,
        })?,
        Some(Inode::File { size }) => rows.push(Listed {
            path,
            is_dir: false,
            size,
        })?,
    }
    Ok(())
}

/// The names from the root down to an inode, each after one `/`; `None` where no so many steps up lead to the root.
fn bytes_up(
    alloc: Global,
    links: &[Option<Uplink>],
    steps: u32,
    inode: u16,
) -> Result<Option<Vec<u8>>, NoMemory>
    ensures { IfOk result (λ found. MatchOption found (bytes_up links.now steps inode ≡ None) (λ bytes. bytes_up links.now steps inode ≡ Some bytes.items)) }
{
    if inode == 0 {
        return Ok(Some(Vec::new(alloc)));
    }
    if steps == 0 {
        return Ok(None);
    }
    let Some(link) = uplink_of(links, inode) else {
        return Ok(None);
    };
    let Some(bytes) = bytes_up(alloc, links, steps - 1, link.directory)? else {
        return Ok(None);
    };
    let bytes = with_name(bytes, &link.name)?;
    Ok(Some(bytes))
}

/// What is noted at an inode.
fn uplink_of(links: &[Option<Uplink>], inode: u16) -> Option<&Uplink>
    ensures { MatchOption result (get_or links.now inode None ≡ None) (λ link. get_or links.now inode None ≡ Some link.now) }
{
    match links.get(inode as usize) {
        Some(Some(link)) => Some(link),
        _ => None,
    }
}

/// One name more below a directory.
fn with_name(mut bytes: Vec<u8>, name: &Bytes) -> Result<Vec<u8>, NoMemory>
    ensures { IfOk result (λ path. path.items ≡ bytes.items ++ 47 ∷ name.now) }
{
    bytes.push(b'/')?;
    bytes.extend_from_slice(name.as_slice())?;
    Ok(bytes)
}

/// A path as bytes: the root is `/` alone.
fn rooted(mut bytes: Vec<u8>) -> Result<Bytes, NoMemory>
    ensures { IfOk result (λ path. path ≡ rooted bytes.items) }
{
    if bytes.is_empty() {
        bytes.push(b'/')?;
    }
    Ok(Bytes::new(bytes))
}
