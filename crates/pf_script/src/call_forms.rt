//! The forms of a `call` line, and the calls that they ask of a mount.
ghost use Rattle.std.specs.Prelude.{◌≡◌, IfOk, IsTrue, map};

use crate::LineFault;
use crate::form::Form;
use crate::values::{byte, number};
use crate::words::{Word, is};
use pf_base::{Bytes, Call, MOST_FILE_BYTES};
use std::alloc::{AllocError, Global};

/// Offsets and sizes stand below this number.
const FILE_BYTES: u64 = 1 << 32;

/// What a call asks of one path, without a number.
#[derive(Clone, Copy)]
pub enum PathVerb {
    Mkdir,
    Create,
    Unlink,
    Rmdir,
    Stat,
    List,
}

/// The name of a call.
#[derive(Clone, Copy)]
pub enum CallVerb {
    OfPath(PathVerb),
    Truncate,
    Rename,
    Write,
    Read,
}

/// A call whose words have the right count, and spell numbers and bytes where they should. Any word stands for a path.
#[derive(Drop)]
pub enum CallForm<'a> {
    OfPath {
        verb: PathVerb,
        path: Word<'a>,
    },
    Truncate {
        path: Word<'a>,
        size: u64,
    },
    Rename {
        from: Word<'a>,
        to: Word<'a>,
    },
    Write {
        path: Word<'a>,
        offset: u64,
        byte: u8,
        count: u64,
    },
    Read {
        path: Word<'a>,
        offset: u64,
        count: u64,
    },
}

ghost use Rattle.pf_script.specs.CallForms.{path_call_form, truncate_form, rename_form, write_form, read_form, call_verb_of, call_form};
ghost use Rattle.pf_script.specs.Calls.{path_call, call_from, fits_call};

fn of_path<'a>(verb: PathVerb, mount: &[u8], words: &[&'a [u8]]) -> Result<Form<'a>, LineFault>
    ensures { result ≡ path_call_form verb mount.now (map (λ word. word.now) words.now) }
{
    let [path] = words else {
        return Err(LineFault::BadWord);
    };
    Ok(Form::Call {
        mount: number(mount)?,
        call: CallForm::OfPath {
            verb,
            path: Word::new(path),
        },
    })
}

fn truncate<'a>(mount: &[u8], words: &[&'a [u8]]) -> Result<Form<'a>, LineFault>
    ensures { result ≡ truncate_form mount.now (map (λ word. word.now) words.now) }
{
    let [path, size] = words else {
        return Err(LineFault::BadWord);
    };
    Ok(Form::Call {
        mount: number(mount)?,
        call: CallForm::Truncate {
            path: Word::new(path),
            size: number(size)?,
        },
    })
}

fn rename<'a>(mount: &[u8], words: &[&'a [u8]]) -> Result<Form<'a>, LineFault>
    ensures { result ≡ rename_form mount.now (map (λ word. word.now) words.now) }
{
    let [from, to] = words else {
        return Err(LineFault::BadWord);
    };
    Ok(Form::Call {
        mount: number(mount)?,
        call: CallForm::Rename {
            from: Word::new(from),
            to: Word::new(to),
        },
    })
}

fn write<'a>(mount: &[u8], words: &[&'a [u8]]) -> Result<Form<'a>, LineFault>
    ensures { result ≡ write_form mount.now (map (λ word. word.now) words.now) }
{
    let [path, offset, filler, count] = words else {
        return Err(LineFault::BadWord);
    };
    Ok(Form::Call {
        mount: number(mount)?,
        call: CallForm::Write {
            path: Word::new(path),
            offset: number(offset)?,
            byte: byte(filler)?,
            count: number(count)?,
        },
    })
}

fn read<'a>(mount: &[u8], words: &[&'a [u8]]) -> Result<Form<'a>, LineFault>
    ensures { result ≡ read_form mount.now (map (λ word. word.now) words.now) }
{
    let [path, offset, count] = words else {
        return Err(LineFault::BadWord);
    };
    Ok(Form::Call {
        mount: number(mount)?,
        call: CallForm::Read {
            path: Word::new(path),
            offset: number(offset)?,
            count: number(count)?,
        },
    })
}

/// The call of this name. Its first letter leaves few to compare it with.
fn read_call_verb(word: &[u8]) -> Option<CallVerb>
    ensures { result ≡ call_verb_of word.now }
{
    let (first, _) = word.split_first()?;
    match *first {
        b'c' => is(word, b"create").then_some(CallVerb::OfPath(PathVerb::Create)),
        b'l' => is(word, b"list").then_some(CallVerb::OfPath(PathVerb::List)),
        b'm' => is(word, b"mkdir").then_some(CallVerb::OfPath(PathVerb::Mkdir)),
        b'r' if is(word, b"read") => Some(CallVerb::Read),
        b'r' if is(word, b"rename") => Some(CallVerb::Rename),
        b'r' => is(word, b"rmdir").then_some(CallVerb::OfPath(PathVerb::Rmdir)),
        b's' => is(word, b"stat").then_some(CallVerb::OfPath(PathVerb::Stat)),
        b't' => is(word, b"truncate").then_some(CallVerb::Truncate),
        b'u' => is(word, b"unlink").then_some(CallVerb::OfPath(PathVerb::Unlink)),
        b'w' => is(word, b"write").then_some(CallVerb::Write),
        _ => None,
    }
}

/// The form of a `call` line that has these words after its first.
///
/// A wrong name of a call or count of words is `BadWord` (20), also where a number is wrong too. Else the first word from
/// the left that should be a number or a byte and is none is `BadNumber` (21).
pub fn read_call<'a>(words: &[&'a [u8]]) -> Result<Form<'a>, LineFault>
    ensures { result ≡ call_form (map (λ word. word.now) words.now) }
{
    let [mount, name, words @ ..] = words else {
        return Err(LineFault::BadWord);
    };
    match read_call_verb(name) {
        Some(CallVerb::OfPath(verb)) => of_path(verb, mount, words),
        Some(CallVerb::Truncate) => truncate(mount, words),
        Some(CallVerb::Rename) => rename(mount, words),
        Some(CallVerb::Write) => write(mount, words),
        Some(CallVerb::Read) => read(mount, words),
        None => Err(LineFault::BadWord),
    }
}

impl PathVerb {
    fn call(self, path: Bytes) -> Call<Bytes>
        ensures { result ≡ path_call self path }
    {
        match self {
            PathVerb::Mkdir => Call::Mkdir { path },
            PathVerb::Create => Call::Create { path },
            PathVerb::Unlink => Call::Unlink { path },
            PathVerb::Rmdir => Call::Rmdir { path },
            PathVerb::Stat => Call::Stat { path },
            PathVerb::List => Call::List { path },
        }
    }
}

impl<'a> CallForm<'a> {
    /// Whether its numbers lie in their ranges.
    pub fn fits(&self) -> bool
        ensures { result ≡ fits_call (call_from self.now) }
    {
        match self {
            CallForm::OfPath { .. } => true,
            CallForm::Truncate { size, .. } => *size < FILE_BYTES,
            CallForm::Rename { .. } => true,
            CallForm::Write { offset, count, .. } => *offset < FILE_BYTES
                && *count <= MOST_FILE_BYTES as u64,
            CallForm::Read { offset, count, .. } => *offset < FILE_BYTES
                && *count <= MOST_FILE_BYTES as u64,
        }
    }

    /// The call, with copies of its words.
    pub fn call(&self, alloc: Global) -> Result<Call<Bytes>, AllocError>
        requires { IsTrue (fits_call (call_from self.now)) }
        ensures { IfOk result (λ call. call ≡ call_from self.now) }
    {
        match self {
            CallForm::OfPath { verb, path } => Ok(verb.call(path.copied(alloc)?)),
            CallForm::Truncate { path, size } => Ok(Call::Truncate {
                path: path.copied(alloc)?,
                size: *size as u32,
            }),
            CallForm::Rename { from, to } => Ok(Call::Rename {
                from: from.copied(alloc)?,
                to: to.copied(alloc)?,
            }),
            CallForm::Write {
                path,
                offset,
                byte,
                count,
            } => Ok(Call::Write {
                path: path.copied(alloc)?,
                offset: *offset as u32,
                byte: *byte,
                count: *count as u32,
            }),
            CallForm::Read {
                path,
                offset,
                count,
            } => Ok(Call::Read {
                path: path.copied(alloc)?,
                offset: *offset as u32,
                count: *count as u32,
            }),
        }
    }
}
