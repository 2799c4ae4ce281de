//! Paths.
ghost use Rattle.std.specs.Prelude.{◌≡◌, ◌≢◌, ◌≤◌, ◌<◌, ◌↔◌, ◌⊎◌, ℕ, List, [], ◌∷◌, ◌++◌, codes, length, slice_index, IsTrue, IfOk, IfSome, IfNone, Err};
ghost use Rattle.std.specs.List.{AllByRecursion};
ghost use Rattle.pf_layout.specs.Paths.{IsName, IsPath, ReadsPath, is_name_byte};
ghost use Rattle.pf_tree.specs.Paths.{names_bytes, path_bytes};

use crate::PathFault;
use pf_base::{Bytes, Names};
use std::alloc::Global;
use std::marker::Model;

/// The most bytes of a path.
const MOST_BYTES: usize = 255;

/// The most names of a path.
const MOST_NAMES: usize = 16;

/// The most bytes of a name.
const MOST_NAME_BYTES: usize = 24;

/// A path: `/`, or 1 to 16 names each after one `/`, 255 bytes at most. A name has 1 to 24 bytes of `a` to `z`, `0` to `9`,
/// `.`, `_` and `-`, and is neither `.` nor `..`. It is seen as its names, the last one first.
#[derive(Debug, Drop)]
pub struct Path {
    names: Names,
}

impl Model for Path {
    ghost use Rattle.std.specs.Prelude.{List, ℕ};
    ghost use Rattle.pf_layout.specs.Paths.{IsPath};

    ghost Value = { List (List ℕ) };

    ghost view = { λ p. p.names };

    ghost invariant = { λ p. IsPath p.names };
}

impl Path {
    /// The path that the word spells. `BadName` (80) comes exactly where it spells none, and `NoMemory` (1) where memory has
    /// run out.
    pub fn parse(alloc: Global, word: &[u8]) -> Result<Path, PathFault>
        ensures { ReadsPath word.now result }
    {
        let names = read_names(alloc, word)?;
        Ok(Path {
            names: Names::new(names),
        })
    }

    /// The names, the last one first.
    pub fn names(&self) -> &Names
        ensures value { result.now ≡ self.now }
        ensures path { IsPath self.now }
    {
        &self.names
    }

    /// The names, the last one first. This takes no memory.
    pub(crate) fn into_names(self) -> Names
        ensures value { result ≡ self }
        ensures path { IsPath result }
    {
        let Path { names } = self;
        names
    }

    /// Whether this is `/`.
    pub fn is_root(&self) -> bool
        ensures { IsTrue result ↔ (self.now ≡ []) }
    {
        self.names.as_slice().is_empty()
    }
}

/// The names of the path that the word spells, the last one first.
fn read_names(alloc: Global, word: &[u8]) -> Result<Vec<Bytes>, PathFault>
    ensures names { IfOk result (λ names. IsPath names.items × (path_bytes names.items ≡ word.now)) }
    ensures bad_name { result ≡ Err PathFault.BadName → (path : List (List ℕ)) → IsPath path → path_bytes path ≢ word.now }
{
    if word.len() > MOST_BYTES {
        return Err(PathFault::BadName);
    }
    if is_slash(word) {
        return Ok(Vec::new(alloc));
    }
    let names = split_names(alloc, word)?;
    if names.is_empty() || names.len() > MOST_NAMES {
        return Err(PathFault::BadName);
    }
    Ok(names)
}

/// Whether the word is `/` alone.
fn is_slash(word: &[u8]) -> bool
    ensures { IsTrue result ↔ (word.now ≡ path_bytes []) }
{
    matches!(word, [b'/'])
}

/// The names of a word that has each of them after one `/`, the last one first.
fn split_names(alloc: Global, word: &[u8]) -> Result<Vec<Bytes>, PathFault>
    ensures names { IfOk result (λ names. AllByRecursion IsName names.items × (names_bytes names.items ≡ word.now)) }
    ensures bad_name { result ≡ Err PathFault.BadName → (path : List (List ℕ)) → AllByRecursion IsName path → names_bytes path ≢ word.now }
{
    let mut names = Vec::new(alloc);
    let mut rest = word;
    while !rest.is_empty() {
        let Some((front, name)) = split_last(rest) else {
            return Err(PathFault::BadName);
        };
        if !is_name(name) {
            return Err(PathFault::BadName);
        }
        names.push(Bytes::new(Vec::from_slice(alloc, name)?))?;
        rest = front;
    }
    Ok(names)
}

/// What stands before the last `/`, and what after it.
fn split_last(word: &[u8]) -> Option<(&[u8], &[u8])>
    ensures cut { IfSome result (λ cut. word.now ≡ cut.0.now ++ 47 ∷ cut.1.now) }
    ensures last { IfSome result (λ cut. AllByRecursion (λ b. b ≢ 47) cut.1.now) }
    ensures none { IfNone result (AllByRecursion (λ b. b ≢ 47) word.now) }
{
    let at = last_slash(word)?;
    Some((&word[..at], &word[at + 1..]))
}

/// The place of the last `/`.
fn last_slash(word: &[u8]) -> Option<usize>
    ensures slash { IfSome result (λ at. (at < length word.now) × (slice_index word.now at ≡ 47)) }
    ensures last { IfSome result (λ at. (i : ℕ) → at < i → slice_index word.now i ≢ 47) }
    ensures none { IfNone result ((i : ℕ) → slice_index word.now i ≢ 47) }
{
    let mut end = word.len();
    while end > 0 {
        if word[end - 1] == b'/' {
            return Some(end - 1);
        }
        end -= 1;
    }
    None
}

/// Whether these bytes are a name: 1 to 24 of `a` to `z`, `0` to `9`, `.`, `_` and `-`, and neither `.` nor `..`.
pub fn is_name(name: &[u8]) -> bool
    ensures { IsTrue result ↔ IsName name.now }
{
    !name.is_empty()
        && name.len() <= MOST_NAME_BYTES
        && !is_dots(name)
        && name.iter().all(|byte| is_name_byte(*byte))
}

/// Whether this is `.` or `..`.
fn is_dots(name: &[u8]) -> bool
    ensures { IsTrue result ↔ ((name.now ≡ codes ".") ⊎ (name.now ≡ codes "..")) }
{
    matches!(name, [b'.'] | [b'.', b'.'])
}

/// Whether a name may have this byte.
fn is_name_byte(byte: u8) -> bool
    ensures { result ≡ is_name_byte byte }
{
    byte.is_ascii_lowercase()
        || byte.is_ascii_digit()
        || byte == b'.'
        || byte == b'_'
        || byte == b'-'
}
